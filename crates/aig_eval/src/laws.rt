//! The laws of the meaning of circuits, each the clause of a function that does nothing.

ghost use Rattle.aig_eval.specs.Laws.{ShownAt, ShownIsReachable, ShownOnce, SomePath, SomeStep};

/// Some assignment fits a state and a row of inputs.
pub fn some_step()
    ensures { SomeStep }
{}

/// A start and rows of inputs have a path.
pub fn some_path()
    ensures { SomePath }
{}

/// What a trace shows is reachable.
pub fn shown_is_reachable()
    ensures { ShownIsReachable }
{}

/// A trace shows no second goal.
pub fn shown_once()
    ensures { ShownOnce }
{}

/// A trace shows its goal at its last step.
pub fn shown_at()
    ensures { ShownAt }
{}
