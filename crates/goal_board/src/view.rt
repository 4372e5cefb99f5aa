//! What the rule of the board speaks of beside its words.

use aig_model::Signals;
use board_core::View as Known;
use sim_walk::Options;
use std::snapshot::Snapshot;

// What the rule is told when the board is made. It keeps the signals as contracts see them, and no byte of them.
#[derive(Drop)]
pub struct Terms {
    pub signals: Snapshot<Signals>,
    pub options: Options,
    pub goals: u64,
    pub callers: u64,
}

// What a seat knows. No value of it is made.
pub struct View {
    // The board's terms; a spent seat has none.
    pub terms: Option<Terms>,
    // How many callers it stands for. With none it is spent.
    pub parts: u64,
    pub caller: u64,
    // What its caller knows, as in a core.
    pub known: Known,
    // How many callers were made; only the seat that makes them knows it, else it is 0.
    pub made: u64,
    // How many entries it may still post, and how many each caller may.
    pub left: u64,
    pub share: u64,
}
