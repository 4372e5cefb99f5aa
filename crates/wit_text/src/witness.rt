//! Witnesses.

use aig_model::Trace;

/// A trace that shows a bad literal, and the literal's position among them.
#[derive(Debug, Drop)]
pub struct Witness {
    pub property: u32,
    pub trace: Trace,
}
