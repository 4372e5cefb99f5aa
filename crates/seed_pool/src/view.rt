//! What the rule of the pool speaks of beside its words and slots.

use aig_model::Circuit;
use std::collections::LinkedList;
use std::snapshot::Snapshot;

// What the rule is told when the pool is made. It keeps the circuit as contracts see it, and no byte of it.
#[derive(Drop)]
pub struct Terms {
    pub circuit: Snapshot<Circuit>,
    pub callers: u64,
}

// What a seat knows. No value of it is made.
pub struct View<S> {
    // The pool's terms; a spent seat has none.
    pub terms: Option<Terms>,
    // How many callers it stands for. With none it is spent.
    pub parts: u64,
    pub put: LinkedList<S>,
    pub taken: LinkedList<S>,
    // The cell that it claims: for a put, or with the seed that it takes.
    pub claim: Option<(usize, Option<S>)>,
    // Of each claim step the cell, and the word that it found there.
    pub tried: LinkedList<(usize, u64)>,
}
