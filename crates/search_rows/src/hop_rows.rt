//! Searches of small circuits from reset.

ghost use Rattle.std.specs.Prelude.{◌≡◌};

use crate::circuits::{goals, signals};
use aig_ascii::read_aag;
use aig_eval::replay;
use aig_model::{Circuit, Signals, Trace};
use hop_search::{Hop, next_new};
use std::alloc::Global;
use std::test::Fail;
use unroll::{FrameFault, Start};

#[derive(Clone, Copy, Debug, PartialEq, Eq)]
enum Verdict {
    New(u32),
    NoMore,
    Spent,
    TooLarge,
    OutOfMemory,
}

/// A circuit, its signals, a step, whether goal 0 is settled, a budget of lemmas, and what the search answers.
type Row = (&'static [u8], &'static [u8], u32, bool, u64, Verdict);

const TOGGLE: &[u8] = b"aag 1 0 1 0 0\n2 3\n";

/// A one walks through three latches.
const CHAIN: &[u8] = b"aag 3 0 3 0 0\n2 1\n4 2\n6 4\n";

/// Whether two parities of three inputs differ.
const PARITIES: &[u8] =
    b"aag 18 3 0 1 15\n2\n4\n6\n36\n8 2 4\n10 3 5\n12 9 11\n14 12 6\n16 13 7\n18 15 17\n\
    20 4 6\n22 5 7\n24 21 23\n26 24 2\n28 25 3\n30 27 29\n32 18 30\n34 19 31\n36 33 35\n";

const ROWS: [Row; 10] = [
    (TOGGLE, b"l0", 0, false, 9, Verdict::New(0)),
    (TOGGLE, b"l0", 0, true, 9, Verdict::NoMore),
    (TOGGLE, b"l0", 1, true, 9, Verdict::New(1)),
    // the one comes to the last latch at step 3
    (CHAIN, b"l2", 2, true, 9, Verdict::NoMore),
    (CHAIN, b"l2", 3, true, 9, Verdict::New(1)),
    // a free reset, and a constraint that is false
    (
        b"aag 1 0 1 0 0\n2 2 2\n",
        b"l0",
        0,
        true,
        9,
        Verdict::New(1),
    ),
    (
        b"aag 1 0 1 0 0 0 1\n2 3\n0\n",
        b"l0",
        0,
        false,
        9,
        Verdict::NoMore,
    ),
    // one lemma is too few, and many are enough
    (PARITIES, b"o0", 0, true, 1, Verdict::Spent),
    (PARITIES, b"o0", 0, true, 1000, Verdict::NoMore),
    (
        b"aag 400000 0 0 1 0\n0\n",
        b"o0",
        10,
        false,
        9,
        Verdict::TooLarge,
    ),
];

/// A new goal whose trace shows it.
fn replayed(
    alloc: Global,
    circuit: &Circuit,
    signals: &Signals,
    goal: u32,
    trace: &Trace,
) -> Verdict
    requires { signals.now.circuit ≡ circuit.now }
{
    if trace.rows.len() < 100 && replay(alloc, circuit, signals, trace).ok() == Some(goal) {
        Verdict::New(goal)
    } else {
        Verdict::OutOfMemory
    }
}

fn verdict_of(alloc: Global, circuit: &Circuit, signals: &Signals, hop: &Hop) -> Verdict
    requires { signals.now.circuit ≡ circuit.now }
{
    match hop {
        Hop::New { goal, trace } => replayed(alloc, circuit, signals, *goal, trace),
        Hop::NoMore(_) => Verdict::NoMore,
        Hop::Spent(_) => Verdict::Spent,
    }
}

fn searched(
    alloc: Global,
    circuit: &Circuit,
    signals: &Signals,
    row: &Row,
) -> Result<Hop, FrameFault>
    requires { signals.now.circuit ≡ circuit.now }
{
    let (_, _, step, settled, lemmas, _) = *row;
    if lemmas == 0 || lemmas > 1000 {
        return Err(FrameFault::OutOfMemory);
    }
    let settled = goals(alloc, settled)?;
    next_new(
        alloc,
        circuit,
        signals,
        &Start::Reset,
        step,
        &settled,
        lemmas,
    )
}

fn answer(alloc: Global, circuit: &Circuit, signals: &Signals, row: &Row) -> Verdict
    requires { signals.now.circuit ≡ circuit.now }
{
    match searched(alloc, circuit, signals, row) {
        Ok(hop) => verdict_of(alloc, circuit, signals, &hop),
        Err(FrameFault::TooLarge) => Verdict::TooLarge,
        Err(FrameFault::OutOfMemory) => Verdict::OutOfMemory,
    }
}

fn has_answer(alloc: Global, circuit: &Circuit, row: &Row) -> bool {
    match signals(alloc, row.1, circuit) {
        Some(signals) => answer(alloc, circuit, &signals, row) == row.5,
        None => false,
    }
}

fn is_met(alloc: Global, row: &Row) -> bool {
    match read_aag(alloc, row.0) {
        Ok(circuit) => has_answer(alloc, &circuit, row),
        Err(_) => false,
    }
}

#[test]
fn searches_from_reset(rt: HostRuntime) {
    for (place, row) in ROWS.iter().enumerate() {
        assert!(rt; is_met(rt.alloc(), row), "row {place}");
    }
}
