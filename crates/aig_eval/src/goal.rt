//! The goal that an assignment shows.

ghost use Rattle.std.specs.Prelude.{◌≡◌, ◌+◌, length};
ghost use Rattle.aig_model.specs.Meaning.{goal_of};

use crate::step::value;
use aig_model::{Bits, Signals};

/// The goal that an assignment of the signals' circuit shows.
pub fn goal_of(signals: &Signals, values: &Bits) -> u32
    requires { length values.now ≡ signals.now.circuit.top + 1 }
    ensures { result ≡ goal_of signals.now.lits values.now }
{
    let lits = signals.lits();
    let mut goal = 0;
    for place in (0..lits.len()).rev() {
        let bit = value(values, *lits.get(place));
        goal = 2 * goal + u32::from(bit);
    }
    goal
}
