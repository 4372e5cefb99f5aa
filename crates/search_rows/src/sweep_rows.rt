//! Sweeps of small circuits of one signal, so of the goals 0 and 1.

ghost use Rattle.std.specs.Prelude.{◌≡◌};

use crate::circuits::{known, signals};
use aig_ascii::read_aag;
use aig_model::{Circuit, Signals};
use ketch_base::OutOfMemory;
use std::alloc::Global;
use std::test::Fail;
use sweep_search::{FoundGoals, StepQueries, StepQuery, Swept, sweep};

/// What is swept, and what comes of it: the steps at which the two goals are found, the last step that is searched
/// whole, and the step of a spent query.
struct Row {
    circuit: &'static [u8],
    signal: &'static [u8],
    knows_zero: bool,
    depth: u32,
    lemmas: u64,
    zero: Option<u32>,
    one: Option<u32>,
    upto: Option<u32>,
    spent: Option<u32>,
}

const TOGGLE: &[u8] = b"aag 1 0 1 0 0\n2 3\n";

/// A one walks through three latches.
const CHAIN: &[u8] = b"aag 3 0 3 0 0\n2 1\n4 2\n6 4\n";

/// Whether two parities of three inputs differ.
const PARITIES: &[u8] =
    b"aag 18 3 0 1 15\n2\n4\n6\n36\n8 2 4\n10 3 5\n12 9 11\n14 12 6\n16 13 7\n18 15 17\n\
    20 4 6\n22 5 7\n24 21 23\n26 24 2\n28 25 3\n30 27 29\n32 18 30\n34 19 31\n36 33 35\n";

const ROWS: [Row; 7] = [
    // every goal is settled before the depth
    Row {
        circuit: TOGGLE,
        signal: b"l0",
        knows_zero: false,
        depth: 10,
        lemmas: 9,
        zero: Some(0),
        one: Some(1),
        upto: Some(0),
        spent: None,
    },
    Row {
        circuit: TOGGLE,
        signal: b"l0",
        knows_zero: true,
        depth: 0,
        lemmas: 9,
        zero: None,
        one: None,
        upto: Some(0),
        spent: None,
    },
    // below the depth at which the one comes to the last latch, and at it
    Row {
        circuit: CHAIN,
        signal: b"l2",
        knows_zero: true,
        depth: 2,
        lemmas: 9,
        zero: None,
        one: None,
        upto: Some(2),
        spent: None,
    },
    Row {
        circuit: CHAIN,
        signal: b"l2",
        knows_zero: false,
        depth: 3,
        lemmas: 9,
        zero: Some(0),
        one: Some(3),
        upto: Some(2),
        spent: None,
    },
    // a constraint that is false, so nothing is reached
    Row {
        circuit: b"aag 1 0 1 0 0 0 1\n2 3\n0\n",
        signal: b"l0",
        knows_zero: false,
        depth: 10,
        lemmas: 9,
        zero: None,
        one: None,
        upto: Some(10),
        spent: None,
    },
    // one lemma is too few, and many are enough
    Row {
        circuit: PARITIES,
        signal: b"o0",
        knows_zero: true,
        depth: 10,
        lemmas: 1,
        zero: None,
        one: None,
        upto: None,
        spent: Some(0),
    },
    Row {
        circuit: PARITIES,
        signal: b"o0",
        knows_zero: false,
        depth: 0,
        lemmas: 1000,
        zero: Some(0),
        one: None,
        upto: Some(0),
        spent: None,
    },
];

fn swept(
    alloc: Global,
    circuit: &Circuit,
    signals: &Signals,
    row: &Row,
    keep: bool,
) -> Result<Swept, OutOfMemory>
    requires { signals.now.circuit ≡ circuit.now }
{
    let width = u64::from(circuit.top()) + 1;
    let vars = (u64::from(row.depth) + 1).saturating_mul(width);
    if vars > 4_000_000 || row.lemmas == 0 || row.lemmas > 1000 {
        return Err(OutOfMemory);
    }
    let known = known(alloc, signals, row.knows_zero)?;
    sweep(alloc, circuit, signals, &known, row.depth, row.lemmas, keep)
}

fn step_of(found: &FoundGoals, goal: u32) -> Option<u32> {
    for new in found.as_slice() {
        if new.goal == goal {
            return Some(new.step);
        }
    }
    None
}

fn spent_step(spent: &Option<StepQuery>) -> Option<u32> {
    match spent {
        Some(query) => Some(query.step),
        None => None,
    }
}

/// Whether there is one query for each step up to this one, in their order.
fn are_up_to(refuted: &StepQueries, upto: Option<u32>) -> bool {
    for (place, query) in refuted.as_slice().iter().enumerate() {
        if query.step as usize != place {
            return false;
        }
    }
    match upto {
        Some(step) => refuted.len() == step as usize + 1,
        None => refuted.is_empty(),
    }
}

fn is_as_told(swept: &Swept, row: &Row) -> bool {
    step_of(&swept.found, 0) == row.zero
        && step_of(&swept.found, 1) == row.one
        && swept.upto == row.upto
        && spent_step(&swept.spent) == row.spent
}

fn has_answer(alloc: Global, circuit: &Circuit, signals: &Signals, row: &Row, keep: bool) -> bool
    requires { signals.now.circuit ≡ circuit.now }
{
    let kept = if keep { row.upto } else { None };
    match swept(alloc, circuit, signals, row, keep) {
        Ok(swept) => is_as_told(&swept, row) && are_up_to(&swept.refuted, kept),
        Err(_) => false,
    }
}

fn sweeps(alloc: Global, circuit: &Circuit, row: &Row, keep: bool) -> bool {
    match signals(alloc, row.signal, circuit) {
        Some(signals) => has_answer(alloc, circuit, &signals, row, keep),
        None => false,
    }
}

fn is_met(alloc: Global, row: &Row, keep: bool) -> bool {
    match read_aag(alloc, row.circuit) {
        Ok(circuit) => sweeps(alloc, &circuit, row, keep),
        Err(_) => false,
    }
}

#[test]
fn sweeps_from_reset(rt: HostRuntime) {
    for (place, row) in ROWS.iter().enumerate() {
        assert!(rt; is_met(rt.alloc(), row, false), "row {place}");
    }
}

#[test]
fn queries_are_kept(rt: HostRuntime) {
    for (place, row) in ROWS.iter().enumerate() {
        assert!(rt; is_met(rt.alloc(), row, true), "row {place}");
    }
}
