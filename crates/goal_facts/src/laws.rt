//! What a source finds is true, and in range.

ghost use Rattle.goal_facts.specs.Laws.{FoundIsInRange, FoundIsTrue};

/// A goal that a source finds is of the kind that the source settles.
pub fn found_is_true()
    ensures { FoundIsTrue }
{}

/// Only the batches and rounds that the options have find goals.
pub fn found_is_in_range()
    ensures { FoundIsInRange }
{}
