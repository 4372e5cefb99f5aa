//! Clauses over the latches of a circuit.

use ketch_base::Sequence;

/// Literals of latches: `k + 1` is latch k, and `-(k + 1)` its negation.
pub type LatchClause = Sequence<i32>;

pub type LatchClauses = Sequence<LatchClause>;
