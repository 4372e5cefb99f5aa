//! Search formulas, as DIMACS texts.

use crate::circuits::{goals, signals};
use aig_ascii::read_aag;
use aig_model::{Circuit, Signals};
use cnf_base::{Formula, write_dimacs};
use std::alloc::Global;
use std::test::Fail;
use unroll::{FrameFault, Start, search_formula};

/// A circuit, its signals, a step, whether goal 0 is blocked, and the formula of the search from reset.
struct Row {
    circuit: &'static [u8],
    signals: &'static [u8],
    step: u32,
    blocked: bool,
    formula: &'static [u8],
}

const ROWS: [Row; 4] = [
    // a toggle: variable 0 is false, the latch starts at 0, and then follows the negation of itself
    Row {
        circuit: b"aag 1 0 1 0 0\n2 3\n",
        signals: b"l0",
        step: 1,
        blocked: true,
        formula: b"p cnf 4 6\n-1 0\n-2 0\n-3 0\n-4 -2 0\n4 2 0\n4 0\n",
    },
    // a variable that nothing defines, a gate, a constraint, and a latch with a free reset
    Row {
        circuit: b"aag 4 1 1 0 1 0 1\n2\n4 6 4\n6\n6 2 5\n",
        signals: b"l0",
        step: 0,
        blocked: false,
        formula: b"p cnf 5 6\n-1 0\n-5 0\n-4 2 0\n-4 -3 0\n4 -2 3 0\n4 0\n",
    },
    // a latch that starts at 1, and two signals
    Row {
        circuit: b"aag 2 1 1 0 0\n2\n4 2 1\n",
        signals: b"l0\ni0",
        step: 0,
        blocked: true,
        formula: b"p cnf 3 3\n-1 0\n3 0\n3 2 0\n",
    },
    // no latch and no input
    Row {
        circuit: b"aag 0 0 0 1 0\n0\n",
        signals: b"o0",
        step: 2,
        blocked: false,
        formula: b"p cnf 3 3\n-1 0\n-2 0\n-3 0\n",
    },
];

fn formula_of(
    alloc: Global,
    circuit: &Circuit,
    text: &[u8],
    step: u32,
    blocked: bool,
) -> Result<Formula, FrameFault> {
    let goals = goals(alloc, blocked)?;
    match signals(alloc, text, circuit) {
        Some(signals) => search_formula(alloc, circuit, &signals, &Start::Reset, step, &goals),
        None => Err(FrameFault::OutOfMemory),
    }
}

fn is_written(alloc: Global, formula: &Formula, wanted: &[u8]) -> bool {
    match write_dimacs(alloc, formula) {
        Ok(text) => text.as_slice() == wanted,
        Err(_) => false,
    }
}

fn has_formula(alloc: Global, circuit: &Circuit, row: &Row) -> bool {
    match formula_of(alloc, circuit, row.signals, row.step, row.blocked) {
        Ok(formula) => is_written(alloc, &formula, row.formula),
        Err(_) => false,
    }
}

fn is_met(alloc: Global, row: &Row) -> bool {
    match read_aag(alloc, row.circuit) {
        Ok(circuit) => has_formula(alloc, &circuit, row),
        Err(_) => false,
    }
}

#[test]
fn search_formulas_are_made(rt: HostRuntime) {
    for (place, row) in ROWS.iter().enumerate() {
        assert!(rt; is_met(rt.alloc(), row), "row {place}");
    }
}
