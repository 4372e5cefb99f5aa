//! Signal lists: the texts that choose the signals of a circuit.
#![tactic(auto)]

mod fault;
mod law;
mod line;
mod names;
mod reading;
mod reference;
mod signal;

pub use fault::{SigFault, SigKind};
pub use law::{each_text_is_read_one_way, spelled_signals_are_well_formed};
pub use reading::read_signals;
