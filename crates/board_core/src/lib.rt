//! The history of a run, and the core of a board: who settled which goal, by what, and who knows it.
#![tactic(auto)]

mod core_state;
mod entry;
mod event;
mod fault;
mod laws;
mod posts;
mod replay;
mod step;
mod view;

pub use core_state::CoreState;
pub use entry::{Entries, Entry, Source};
pub use event::{Event, Reply, Verdict, Verdicts};
pub use fault::{HistoryFault, HistoryKind};
pub use laws::{initial_is_good, kinds_agree, stays_good, stays_good_along};
pub use replay::replay_history;
pub use view::{GoalMark, Looked, View};
