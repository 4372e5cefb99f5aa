//! Walks: a circuit's inputs are given values step by step, and the goals that it shows are noted.
#![tactic(auto)]

mod first_visits;
mod options;
mod visit;
mod walk;

pub use first_visits::FirstVisits;
pub use options::Options;
pub use visit::{Visit, Visits};
pub use walk::{zero_trace, zero_walk};
