//! What new goals are good for, each law the clause of a function that does nothing.

ghost use Rattle.hop_search.specs.Laws.{NewIsAt, NewReplays};

/// The trace of a new goal from reset shows the goal.
pub fn new_replays()
    ensures { NewReplays }
{}

/// A new goal is at the step from the trace's start.
pub fn new_is_at()
    ensures { NewIsAt }
{}
