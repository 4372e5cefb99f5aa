//! What a circuit is made of.

use crate::lit::Lit;
use ketch_base::Sequence;

/// How a latch starts: at a fixed value, or at any.
#[derive(Clone, Copy, Debug, PartialEq, Eq)]
pub enum Reset {
    Zero,
    One,
    Free,
}

#[derive(Clone, Copy, Debug, PartialEq, Eq)]
pub struct Latch {
    pub lit: Lit,
    pub next: Lit,
    pub reset: Reset,
}

#[derive(Clone, Copy, Debug, PartialEq, Eq)]
pub struct AndGate {
    pub lhs: Lit,
    pub left: Lit,
    pub right: Lit,
}

/// What a symbol names, by its position in its section.
#[derive(Clone, Copy, Debug, PartialEq, Eq)]
pub enum Place {
    Input(u32),
    Latch(u32),
    Output(u32),
    Bad(u32),
    Constraint(u32),
}

/// The bytes of a symbol.
pub type Name = Sequence<u8>;

#[derive(Debug, Drop)]
pub struct Named {
    pub place: Place,
    pub name: Name,
}

pub type Lits = Sequence<Lit>;

pub type Latches = Sequence<Latch>;

pub type Gates = Sequence<AndGate>;

pub type Names = Sequence<Named>;

/// The sections of a circuit, whatever they hold; `top` is the greatest variable.
#[derive(Debug, Drop)]
pub struct Parts {
    pub top: u32,
    pub inputs: Lits,
    pub latches: Latches,
    pub outputs: Lits,
    pub bads: Lits,
    pub constraints: Lits,
    pub gates: Gates,
    pub names: Names,
}

/// What is known of a goal that is settled.
#[derive(Clone, Copy, Debug, PartialEq, Eq)]
pub enum Kind {
    Reached,
    Unreachable,
}
