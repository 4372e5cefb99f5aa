//! The rule of the desk, and its three kinds of step.

ghost use Rattle.job_desk.specs.Rule.{Kept, first, Draws, rest_of, new_caller, joined, spent};

use crate::view::{Terms, View};
use atomic_table::{Join, Play, Split, TableRule};

pub struct DeskRule;

impl TableRule<(), View, Terms> for DeskRule {
    ghost holds = { λ t s. Kept t s.words s.views };

    ghost first = { first };
}

/// A number is drawn.
pub struct DrawOne;

impl Play<(), View> for DrawOne {
    ghost then = { Draws };
}

/// A new caller's seat is cut off.
pub struct CutOff;

impl Split<View> for CutOff {
    ghost left = { rest_of };

    ghost right = { new_caller };
}

/// One seat takes in another.
pub struct TakeIn;

impl Join<View> for TakeIn {
    ghost both = { joined };

    ghost spent = { spent };
}
