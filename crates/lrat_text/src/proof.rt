//! What a proof is made of.

use cnf_base::Clause;
use ketch_base::Sequence;

/// Ids of clauses, in the order in which they become unit under the negated lemma. A negative one is read, and
/// belongs to a stronger rule than unit propagation.
pub type Hints = Sequence<i64>;

/// Ids of clauses.
pub type Ids = Sequence<u64>;

/// One line of a proof.
#[derive(Debug, Drop)]
pub enum LratStep {
    /// A new clause, and the clauses that it follows from.
    Add { id: u64, lits: Clause, hints: Hints },
    /// Clauses that are not used from here on; `at` is the line's own number.
    Delete { at: u64, ids: Ids },
}

pub type Proof = Sequence<LratStep>;

pub type Proofs = Sequence<Proof>;
