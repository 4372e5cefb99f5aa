//! Witnesses of AIGER 1.9 as texts: a trace, and the property that it shows.
#![tactic(auto)]

mod fault;
mod laws;
mod lines;
mod reading;
mod witness;
mod writing;

pub use fault::{WitFault, WitKind};
pub use laws::{each_text_is_read_one_way, written_witnesses_are_read_back};
pub use reading::read_witness;
pub use witness::Witness;
pub use writing::{push_witness, write_witness};
