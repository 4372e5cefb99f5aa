//! The circuit whose bad literals are the goals of a circuit's signals, for any other model checker.
#![tactic(auto)]

mod building;
mod copying;
mod fault;
mod laws;
mod levels;
mod standing;

pub use building::goal_circuit;
pub use fault::GoalFault;
pub use laws::{bad_is_goal, fit_extends, fit_restricts, goal_is_circuit, same_reach};
