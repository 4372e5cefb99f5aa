//! The laws of what a circuit means, each the clause of a function that does nothing.

ghost use Rattle.aig_model.specs.Laws.{AtAfter, AtStep, BarredIsUnreachable, DefinersWithinTop, GoalBelow, LeastDependence, OneAssignment, OneGoal, OnePath, PathAppend, PathEnd, PathFront, PathLatches, PathPush, RunAppend, RunEnd, RunFront, RunPush, ShownByRun, StateAfterAppend};

/// Inputs, latches and gates are together at most as many as the greatest variable.
pub fn definers_within_top()
    ensures { DefinersWithinTop }
{}

/// At most one assignment fits a circuit, a state and a row of inputs.
pub fn one_assignment()
    ensures { OneAssignment }
{}

/// Each assignment shows one goal and no other.
pub fn one_goal()
    ensures { OneGoal }
{}

/// A goal is below 2 to the number of signals.
pub fn goal_below()
    ensures { GoalBelow }
{}

/// A start and rows of inputs have no second path.
pub fn one_path()
    ensures { OnePath }
{}

/// The latches of frame n hold the state after the first n frames.
pub fn path_latches()
    ensures { PathLatches }
{}

/// The first frames of a path are a path.
pub fn path_front()
    ensures { PathFront }
{}

/// The later frames of a path are a path from the state that those before them hand on.
pub fn path_end()
    ensures { PathEnd }
{}

/// A path goes on with any path from the state that it hands on.
pub fn path_append()
    ensures { PathAppend }
{}

/// A path grows by an assignment that fits the state that it hands on.
pub fn path_push()
    ensures { PathPush }
{}

/// Frames hand on what the later ones hand on after the earlier ones.
pub fn state_after_append()
    ensures { StateAfterAppend }
{}

/// The first n + 1 frames of a run are a run.
pub fn run_front()
    ensures { RunFront }
{}

/// From frame n on a run is a run from the latches of frame n.
pub fn run_end()
    ensures { RunEnd }
{}

/// Legal frames of a path, maybe none, go on with a run from the state that they hand on.
pub fn run_append()
    ensures { RunAppend }
{}

/// Legal frames of a path, maybe none, go on with a legal assignment that fits the state that they hand on.
pub fn run_push()
    ensures { RunPush }
{}

/// Each step of a run shows the goal of its assignment.
pub fn at_step()
    ensures { AtStep }
{}

/// What is shown after legal frames of a path is shown from their start, so many steps later.
pub fn at_after()
    ensures { AtAfter }
{}

/// The trace of a run from reset up to a step shows the goal of that step.
pub fn shown_by_run()
    ensures { ShownByRun }
{}

/// A goal that clauses bar is not reachable.
pub fn barred_is_unreachable()
    ensures { BarredIsUnreachable }
{}

/// The latches on which literals depend are the least set closed under what is met.
pub fn least_dependence()
    ensures { LeastDependence }
{}
