//! A board of verdicts that threads share: who settled which goal, by what, and who knows it.
#![tactic(auto)]

mod board;
mod calls;
mod closing;
mod gathering;
mod making;
mod ordering;
mod pass;
mod passes;
mod rule;
mod space;
mod table;
mod view;

pub use board::Board;
pub use calls::{Look, Receipt};
pub use gathering::{Evidences, Gathered, Marks, gather};
pub use making::make_board;
pub use pass::Pass;
pub use passes::Passes;
