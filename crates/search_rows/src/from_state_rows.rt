//! Hops from states of small circuits of one signal, so for the goals 0 and 1.

ghost use Rattle.std.specs.Prelude.{◌≡◌};

use crate::circuits::{known, signals};
use aig_ascii::read_aag;
use aig_model::{Bits, Circuit, Signals};
use ketch_base::OutOfMemory;
use std::alloc::Global;
use std::test::Fail;
use sweep_search::{FoundGoal, FoundGoals, StepQuery, Swept, hop_from};

/// Where a hop starts, and what comes of it: the steps at which the two goals are found, the last step that is
/// searched whole, and the step of a spent query.
struct Row {
    circuit: &'static [u8],
    signal: &'static [u8],
    state: &'static [bool],
    knows_zero: bool,
    hop: u32,
    lemmas: u64,
    zero: Option<u32>,
    one: Option<u32>,
    upto: Option<u32>,
    spent: Option<u32>,
}

/// What is in the first of three latches walks through them; from reset that is never a one.
const SHIFT: &[u8] = b"aag 3 0 3 0 0\n2 0\n4 2\n6 4\n";

/// Whether two parities of three inputs differ.
const PARITIES: &[u8] =
    b"aag 18 3 0 1 15\n2\n4\n6\n36\n8 2 4\n10 3 5\n12 9 11\n14 12 6\n16 13 7\n18 15 17\n\
    20 4 6\n22 5 7\n24 21 23\n26 24 2\n28 25 3\n30 27 29\n32 18 30\n34 19 31\n36 33 35\n";

const ROWS: [Row; 6] = [
    // the one comes to the last latch at step 2
    Row {
        circuit: SHIFT,
        signal: b"l2",
        state: &[true, false, false],
        knows_zero: true,
        hop: 1,
        lemmas: 9,
        zero: None,
        one: None,
        upto: Some(1),
        spent: None,
    },
    Row {
        circuit: SHIFT,
        signal: b"l2",
        state: &[true, false, false],
        knows_zero: true,
        hop: 2,
        lemmas: 9,
        zero: None,
        one: Some(2),
        upto: Some(1),
        spent: None,
    },
    // it is there, and gone after one step
    Row {
        circuit: SHIFT,
        signal: b"l2",
        state: &[false, false, true],
        knows_zero: false,
        hop: 10,
        lemmas: 9,
        zero: Some(1),
        one: Some(0),
        upto: Some(0),
        spent: None,
    },
    // a free latch has the state's value, and no other one
    Row {
        circuit: b"aag 1 0 1 0 0\n2 2 2\n",
        signal: b"l0",
        state: &[true],
        knows_zero: false,
        hop: 3,
        lemmas: 9,
        zero: None,
        one: Some(0),
        upto: Some(3),
        spent: None,
    },
    // a constraint that holds at the state, and not one step later
    Row {
        circuit: b"aag 1 0 1 0 0 0 1\n2 3\n2\n",
        signal: b"l0",
        state: &[true],
        knows_zero: false,
        hop: 3,
        lemmas: 9,
        zero: None,
        one: Some(0),
        upto: Some(3),
        spent: None,
    },
    // one lemma is too few
    Row {
        circuit: PARITIES,
        signal: b"o0",
        state: &[],
        knows_zero: true,
        hop: 3,
        lemmas: 1,
        zero: None,
        one: None,
        upto: None,
        spent: Some(0),
    },
];

fn state_of(alloc: Global, values: &[bool]) -> Result<Bits, OutOfMemory> {
    let mut state = Bits::new(alloc);
    for value in values {
        state.push(*value)?;
    }
    Ok(state)
}

fn hopped(
    alloc: Global,
    circuit: &Circuit,
    signals: &Signals,
    state: &Bits,
    row: &Row,
) -> Result<Swept, OutOfMemory>
    requires { signals.now.circuit ≡ circuit.now }
{
    let known = known(alloc, signals, row.knows_zero)?;
    let width = u64::from(circuit.top()) + 1;
    let vars = (u64::from(row.hop) + 1).saturating_mul(width);
    let fits = state.len() == circuit.latches().len();
    if !fits || vars > 4_000_000 || row.lemmas == 0 || row.lemmas > 1000 {
        return Err(OutOfMemory);
    }
    hop_from(
        alloc, circuit, signals, state, &known, row.hop, row.lemmas, false,
    )
}

/// The trace begins in the state, and has a row for each step.
fn is_from(found: &FoundGoal, state: &Bits) -> bool {
    if found.trace.start.len() != state.len() {
        return false;
    }
    for place in 0..state.len() {
        if found.trace.start.get(place) != state.get(place) {
            return false;
        }
    }
    found.trace.rows.len() as u64 == u64::from(found.step) + 1
}

fn step_of(found: &FoundGoals, goal: u32, state: &Bits) -> Option<u32> {
    for new in found.as_slice() {
        if new.goal == goal && is_from(new, state) {
            return Some(new.step);
        }
    }
    None
}

fn spent_step(spent: &Option<StepQuery>) -> Option<u32> {
    match spent {
        Some(query) => Some(query.step),
        None => None,
    }
}

fn is_as_told(hopped: &Swept, state: &Bits, row: &Row) -> bool {
    step_of(&hopped.found, 0, state) == row.zero
        && step_of(&hopped.found, 1, state) == row.one
        && hopped.upto == row.upto
        && spent_step(&hopped.spent) == row.spent
}

fn has_answer(alloc: Global, circuit: &Circuit, signals: &Signals, state: &Bits, row: &Row) -> bool
    requires { signals.now.circuit ≡ circuit.now }
{
    match hopped(alloc, circuit, signals, state, row) {
        Ok(hopped) => is_as_told(&hopped, state, row),
        Err(_) => false,
    }
}

fn hops(alloc: Global, circuit: &Circuit, state: &Bits, row: &Row) -> bool {
    match signals(alloc, row.signal, circuit) {
        Some(signals) => has_answer(alloc, circuit, &signals, state, row),
        None => false,
    }
}

fn hops_of(alloc: Global, circuit: &Circuit, row: &Row) -> bool {
    match state_of(alloc, row.state) {
        Ok(state) => hops(alloc, circuit, &state, row),
        Err(_) => false,
    }
}

fn is_met(alloc: Global, row: &Row) -> bool {
    match read_aag(alloc, row.circuit) {
        Ok(circuit) => hops_of(alloc, &circuit, row),
        Err(_) => false,
    }
}

#[test]
fn hops_from_states(rt: HostRuntime) {
    for (place, row) in ROWS.iter().enumerate() {
        assert!(rt; is_met(rt.alloc(), row), "row {place}");
    }
}
