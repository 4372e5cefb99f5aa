//! What a search answers.

use aig_model::Trace;
use lrat_text::Proof;

/// `New` has a goal that is not settled and a trace that ends in it. `NoMore` has a proof that there is none at this
/// step, and `Spent` one of as many lemmas as the budget allows.
#[derive(Debug, Drop)]
pub enum Hop {
    New { goal: u32, trace: Trace },
    NoMore(Proof),
    Spent(Proof),
}
