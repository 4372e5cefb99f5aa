//! Where frames start.

use aig_model::Bits;

/// The states in which the latches may be at step 0.
#[derive(Debug, Drop)]
pub enum Start {
    /// Any state.
    Any,
    /// The reset states.
    Reset,
    /// This state alone, one value a latch.
    State(Bits),
}
