//! The checker of LRAT proofs: it judges each step by itself, and trusts nothing of who made the proof.
#![tactic(auto)]

mod assumed;
mod checker;
mod fault;
mod key;
mod laws;
mod proof;
mod signs;
mod spent;
mod store;
mod walk;

pub use checker::Checker;
pub use fault::{AddFault, ProofFault, ProofKind, SpentFault};
pub use laws::{accepted_refutes, accepted_without_fault, earned_are_few, spent_without_fault};
pub use proof::check_proof;
pub use spent::check_spent;
