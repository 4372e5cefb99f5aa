//! What a solver was given, and what it learned.

use cnf_base::Clause;
use ketch_base::Sequence;
use lrat_text::Hints;

/// A clause of the formula, or a lemma with the ids of the clauses by which it follows.
#[derive(Debug, Drop)]
pub enum Entry {
    Given(Clause),
    Lemma { lits: Clause, hints: Hints },
}

/// The id of an entry is its place, counted from 1.
pub type Entries = Sequence<Entry>;
