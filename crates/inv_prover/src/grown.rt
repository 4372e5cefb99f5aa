//! What the search for the greatest invariant answers.

use aig_model::LatchClauses;
use lrat_text::{Proof, Proofs};

/// `Whole` has the greatest invariant among the candidates, each clause with its proof. `Spent` has clauses that contain
/// it, and the place of the one on which the budget was spent.
#[derive(Debug, Drop)]
pub enum Grown {
    Whole {
        clauses: LatchClauses,
        kept: Proofs,
    },
    Spent {
        clauses: LatchClauses,
        place: u32,
        proof: Proof,
    },
}
