//! Candidates of small circuits.

use crate::circuits::{CHAIN, RING, are_clauses, signals};
use aig_ascii::read_aag;
use aig_model::Circuit;
use inv_prover::candidates;
use std::alloc::Global;

/// A circuit, its signals, a strength, and the candidates.
type Row = (&'static [u8], &'static [u8], u32, &'static [&'static [i32]]);

const ROWS: [Row; 5] = [
    (RING, b"l0", 0, &[]),
    // the other latch is met through the next literal
    (RING, b"l0", 1, &[&[1], &[-1], &[2], &[-2]]),
    (
        RING,
        b"l1",
        2,
        &[
            &[1],
            &[-1],
            &[2],
            &[-2],
            &[1, 2],
            &[1, -2],
            &[-1, 2],
            &[-1, -2],
        ],
    ),
    // the last latch isn't met
    (CHAIN, b"l1", 1, &[&[1], &[-1], &[2], &[-2]]),
    // through a gate, one of two latches
    (
        b"aag 4 1 2 1 1\n2\n4 4\n6 6\n8\n8 6 2\n",
        b"o0",
        1,
        &[&[2], &[-2]],
    ),
];

fn has_candidates(alloc: Global, circuit: &Circuit, row: &Row) -> bool {
    let Some(signals) = signals(alloc, row.1, circuit) else {
        return false;
    };
    match candidates(alloc, circuit, &signals, row.2) {
        Ok(clauses) => are_clauses(&clauses, row.3),
        Err(_) => false,
    }
}

fn holds(alloc: Global, row: &Row) -> bool {
    match read_aag(alloc, row.0) {
        Ok(circuit) => has_candidates(alloc, &circuit, row),
        Err(_) => false,
    }
}

#[test]
fn candidates_are_listed_in_order(rt: HostRuntime) {
    for (place, row) in ROWS.iter().enumerate() {
        assert!(rt; holds(rt.alloc(), row), "row {place}");
    }
}
