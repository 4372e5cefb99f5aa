//! The prover: clauses over latches that could be invariants, the greatest invariant among them, and the goals that it
//! excludes.
#![tactic(auto)]

mod clauses;
mod excluded;
mod fixpoint;
mod frames;
mod grown;
mod latches;
mod laws;
mod pick;
mod query;
mod round;
mod walk;

pub use clauses::candidates;
pub use excluded::{Excluded, exclude, exclude_framed};
pub use fixpoint::greatest;
pub use frames::one_step;
pub use grown::Grown;
pub use laws::{greatest_is_invariant, one_candidate_list};
