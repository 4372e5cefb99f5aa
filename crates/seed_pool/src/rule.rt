//! The rule of the pool, and its kinds of step.

ghost use Rattle.seed_pool.specs.Rule.{Kept, first, ClaimsPut, MarksFull, ClaimsTake, MarksFree, rest_of, new_caller, joined, spent};

use crate::of_circuit::OfCircuit;
use crate::view::{Terms, View};
use atomic_table::{Join, Play, Split, TableRule};

pub struct PoolRule;

impl<S: OfCircuit> TableRule<Option<S>, View<S>, Terms> for PoolRule {
    ghost holds = { λ t s. Kept S.circuit t s.words s.homes s.views };

    ghost first = { first };
}

/// A cell that was free is claimed for a put.
pub struct ClaimPut;

impl<S> Play<Option<S>, View<S>> for ClaimPut {
    ghost then = { ClaimsPut };
}

/// A cell that was filled is marked full.
pub struct MarkFull;

impl<S> Play<Option<S>, View<S>> for MarkFull {
    ghost then = { MarksFull };
}

/// A cell that was full is claimed with its seed.
pub struct ClaimTake;

impl<S: OfCircuit> Play<Option<S>, View<S>> for ClaimTake {
    ghost then = { ClaimsTake S.circuit };
}

/// A cell that was emptied is marked free.
pub struct MarkFree;

impl<S> Play<Option<S>, View<S>> for MarkFree {
    ghost then = { MarksFree };
}

/// A new caller's seat is cut off.
pub struct CutOff;

impl<S> Split<View<S>> for CutOff {
    ghost left = { rest_of };

    ghost right = { new_caller };
}

/// One seat takes in another.
pub struct TakeIn;

impl<S> Join<View<S>> for TakeIn {
    ghost both = { joined };

    ghost spent = { spent };
}
