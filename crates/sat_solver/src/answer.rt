//! What the solver answers.

use aig_model::Bits;
use lrat_text::Proof;

/// `Sat` has the values of the variables from 1 on. `Unsat` has a proof that no values satisfy the formula, and `Spent`
/// one of as many lemmas as the budget allows.
#[derive(Debug, Drop)]
pub enum Answer {
    Sat(Bits),
    Unsat(Proof),
    Spent(Proof),
}

/// An answer, and how many conflicts the search learned from. The other lemmas of a proof are literals of level 0, into
/// which no search went.
#[derive(Debug, Drop)]
pub struct Counted {
    pub answer: Answer,
    pub conflicts: usize,
}
