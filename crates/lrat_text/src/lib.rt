//! Proofs in the LRAT format, and their texts.
#![tactic(auto)]

mod fault;
mod law;
mod proof;
mod reading;
mod step;
mod word;
mod writing;

pub use fault::{LratFault, LratKind};
pub use law::{each_text_is_read_one_way, writable_proofs_are_read_back};
pub use proof::{Hints, Ids, LratStep, Proof, Proofs};
pub use reading::read_lrat;
pub use writing::write_lrat;
