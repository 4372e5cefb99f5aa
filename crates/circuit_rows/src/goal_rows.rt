//! Goal circuits, as texts.

use crate::evaluation_rows::signals;
use aig_ascii::{read_aag, write_aag};
use aig_model::Circuit;
use goal_circuit::{GoalFault, goal_circuit};
use std::alloc::Global;

/// A circuit, its signals, and its goal circuit.
struct Row {
    circuit: &'static [u8],
    signals: &'static [u8],
    goals: &'static [u8],
}

const ROWS: [Row; 5] = [
    // a toggle
    Row {
        circuit: b"aag 1 0 1 2 0\n2 3\n2\n3\n",
        signals: b"l0",
        goals: b"aag 1 0 1 0 0 2\n2 3\n3\n2\n",
    },
    // two signals: a gate for each combination, in the order of their numbers
    Row {
        circuit: b"aag 7 2 1 0 4\n2\n4\n6 8\n12 2 6\n14 3 7\n10 13 15\n8 4 10\n",
        signals: b"l0\ni0",
        goals: b"aag 11 2 1 0 8 4\n2\n4\n6 8\n16\n18\n20\n22\n12 2 6\n14 3 7\n10 13 15\n8 4 10\n\
            16 7 3\n18 6 3\n20 7 2\n22 6 2\n",
    },
    // a signal that nothing defines is false, and its negation true
    Row {
        circuit: b"aag 2 0 1 0 0\n2 3\n",
        signals: b"n4",
        goals: b"aag 2 0 1 0 0 2\n2 3\n1\n0\n",
    },
    Row {
        circuit: b"aag 2 0 1 0 0\n2 3\n",
        signals: b"n5",
        goals: b"aag 2 0 1 0 0 2\n2 3\n0\n1\n",
    },
    // outputs and bad literals go, with their names
    Row {
        circuit: b"aag 2 1 0 1 0 1 1\n2\n2\n3\n2\ni0 a\no0 b\nb0 c\nc0 d\n",
        signals: b"i0",
        goals: b"aag 2 1 0 0 0 2 1\n2\n3\n2\n2\ni0 a\nc0 d\n",
    },
];

fn is_written(alloc: Global, circuit: &Circuit, wanted: &[u8]) -> bool {
    match write_aag(alloc, circuit) {
        Ok(text) => text.as_slice() == wanted,
        Err(_) => false,
    }
}

fn goals_of(alloc: Global, circuit: &Circuit, text: &[u8]) -> Result<Circuit, GoalFault> {
    match signals(alloc, text, circuit) {
        Some(signals) => goal_circuit(alloc, circuit, &signals),
        None => Err(GoalFault::OutOfMemory),
    }
}

fn has_goals(alloc: Global, circuit: &Circuit, row: &Row) -> bool {
    match goals_of(alloc, circuit, row.signals) {
        Ok(goals) => is_written(alloc, &goals, row.goals),
        Err(_) => false,
    }
}

fn is_met(alloc: Global, row: &Row) -> bool {
    match read_aag(alloc, row.circuit) {
        Ok(circuit) => has_goals(alloc, &circuit, row),
        Err(_) => false,
    }
}

#[test]
fn goal_circuits_are_made(rt: HostRuntime) {
    for (place, row) in ROWS.iter().enumerate() {
        assert!(rt; is_met(rt.alloc(), row), "row {place}");
    }
}

/// As many variables as a circuit may have.
const GREATEST: &[u8] = b"aag 3999999 0 0 1 0\n0\n";

fn is_too_large(alloc: Global, text: &[u8]) -> Option<bool> {
    match read_aag(alloc, GREATEST) {
        Ok(circuit) => { Some(goals_of(alloc, &circuit, text).err() == Some(GoalFault::TooLarge)) }
        Err(_) => None,
    }
}

#[test]
fn two_signals_need_more_variables(rt: HostRuntime) {
    assert!(rt; is_too_large(rt.alloc(), b"n2") == Some(false));
    assert!(rt; is_too_large(rt.alloc(), b"n2\nn4") == Some(true));
}
