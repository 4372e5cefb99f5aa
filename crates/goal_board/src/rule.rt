//! The rule of the board, and its kinds of step.

ghost use Rattle.std.specs.Prelude.{ℕ};
ghost use Rattle.board_core.specs.declared.entry.Source.{Source};
ghost use Rattle.board_core.specs.declared.entry.Source.TheVariants.{Proved};
ghost use Rattle.goal_board.specs.Rule.{Kept, first, Numbers, Marks, Looks, rest_of, new_caller, joined, spent};

use crate::view::{Terms, View};
use atomic_table::{Join, Play, Split, TableRule};
use std::marker::{Brand, PhantomData};

pub struct BoardRule;

impl TableRule<(), View, Terms> for BoardRule {
    ghost holds = { λ t s. Kept t s.words s.views };

    ghost first = { first };
}

/// What is posted. A call of the step picks it.
pub trait Post {
    ghost goal: { ℕ };

    ghost source: { Source };
}

impl Post for Brand {
    ghost goal = { 0 };

    ghost source = { Proved };
}

/// The next number is drawn for an entry.
pub struct Number<A> {
    of: PhantomData<A>,
}

impl<A: Post> Play<(), View> for Number<A> {
    ghost then = { Numbers A.goal A.source };
}

/// The goal of the caller's last entry is marked, unless it is already.
pub struct Mark;

impl Play<(), View> for Mark {
    ghost then = { Marks };
}

/// A goal is looked at.
pub struct LookAt;

impl Play<(), View> for LookAt {
    ghost then = { Looks };
}

/// A new caller's seat is cut off.
pub struct CutOff;

impl Split<View> for CutOff {
    ghost left = { rest_of };

    ghost right = { new_caller };
}

/// One seat takes in another.
pub struct TakeIn;

impl Join<View> for TakeIn {
    ghost both = { joined };

    ghost spent = { spent };
}
