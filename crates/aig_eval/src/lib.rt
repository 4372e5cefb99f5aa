//! The values of a circuit's variables, step by step, and the replay of traces.
#![tactic(auto)]

mod fault;
mod goal;
mod laws;
mod replaying;
mod resets;
mod state;
mod step;

pub use fault::ReplayFault;
pub use goal::goal_of;
pub use laws::{shown_at, shown_is_reachable, shown_once, some_path, some_step};
pub use replaying::replay;
pub use state::{is_legal, next_state};
pub use step::step_values;
