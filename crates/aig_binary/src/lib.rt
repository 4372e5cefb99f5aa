//! The binary format of AIGER 1.9.
#![tactic(auto)]

mod bytes;
mod delta;
mod fault;
mod gates;
mod law;
mod lines;
mod order;
mod reading;
mod round_trip;
mod writing;

pub use fault::{AigFault, AigKind, WriteAigFault};
pub use law::{each_file_is_read_one_way, spelled_circuits_are_well_formed};
pub use reading::read_aig;
pub use round_trip::written_files_read_back;
pub use writing::write_aig;
