//! What a solver answers.

use aig_model::Bits;

#[derive(Debug, Drop)]
pub enum Outcome {
    /// The values of the variables from 1 on.
    Model(Bits),
    /// The id of a lemma of negated assumptions.
    Core(u64),
    /// A literal and its negation are assumed.
    Clash,
    /// The budget of lemmas is spent.
    Spent,
}
