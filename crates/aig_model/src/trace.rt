//! Traces.

use crate::bits::Bits;
use crate::rows::Rows;

/// A start, one value a latch, and the rows of inputs that follow, one value an input.
#[derive(Debug, Drop)]
pub struct Trace {
    pub start: Bits,
    pub rows: Rows,
}
