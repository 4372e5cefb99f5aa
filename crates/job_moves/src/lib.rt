//! The jobs of a run, the moves of each job, and who watches them.
#![tactic(auto)]

mod gate;
mod job;
mod moves;

pub use gate::{Gate, OpenGate};
pub use job::{Job, job_at, job_count};
pub use moves::{Facts, Move, next_move};
