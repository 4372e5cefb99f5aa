//! The laws of goal circuits, each the clause of a function that does nothing.

ghost use Rattle.goal_circuit.specs.Laws.{BadIsGoal, FitExtends, FitRestricts, GoalIsCircuit, SameReach};

/// The goal circuit is well formed.
pub fn goal_is_circuit()
    ensures { GoalIsCircuit }
{}

/// Bad literal g is true exactly where goal g is shown.
pub fn bad_is_goal()
    ensures { BadIsGoal }
{}

/// Each assignment of the circuit extends to one of the goal circuit.
pub fn fit_extends()
    ensures { FitExtends }
{}

/// Each assignment of the goal circuit restricts to one of the circuit.
pub fn fit_restricts()
    ensures { FitRestricts }
{}

/// A goal is reachable in the goal circuit exactly where it is in the circuit.
pub fn same_reach()
    ensures { SameReach }
{}
