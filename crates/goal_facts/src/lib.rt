//! When a source finds a goal, and that what it finds is true of the circuit.
#![tactic(auto)]

mod laws;

pub use laws::{found_is_in_range, found_is_true};
