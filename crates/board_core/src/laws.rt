//! Laws of the definitions, each a function that does nothing.

ghost use Rattle.board_core.specs.Good.{InitialIsGood, StaysGood, StaysGoodAlong, KindsAgree};

/// A core in which nothing has happened is good.
pub fn initial_is_good()
    ensures { InitialIsGood }
{}

/// Each event that may happen keeps a core good.
pub fn stays_good()
    ensures { StaysGood }
{}

/// So does each list of such events.
pub fn stays_good_along()
    ensures { StaysGoodAlong }
{}

/// Entries of one goal agree in kind.
pub fn kinds_agree()
    ensures { KindsAgree }
{}
