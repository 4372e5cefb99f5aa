//! What candidates and the greatest invariant are.

ghost use Rattle.inv_prover.specs.Laws.{GreatestIsInvariant, OneCandidateList};

/// A circuit, signals and a strength have no second list of candidates.
pub fn one_candidate_list()
    ensures { OneCandidateList }
{}

/// The greatest invariant among clauses is one.
pub fn greatest_is_invariant()
    ensures { GreatestIsInvariant }
{}
