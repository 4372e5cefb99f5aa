//! What every crate of Ketch stands on: the one list type, and the one error for out of memory.
#![tactic(auto)]

mod memory;
mod sequence;

pub use memory::OutOfMemory;
pub use sequence::Sequence;
