//! What evidence says of a circuit.

ghost use Rattle.inv_cert.specs.Evidences.{ShownIsNotBarred};
ghost use Rattle.inv_cert.specs.KeptSets.{KeptSetsAreInvariant};

/// The clauses of a kept set hold in every reset state, and after every legal step before which they hold.
pub fn kept_sets_are_invariant()
    ensures { KeptSetsAreInvariant }
{}

/// No goal has evidence of both kinds.
pub fn shown_is_not_barred()
    ensures { ShownIsNotBarred }
{}
