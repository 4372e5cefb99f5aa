//! Small circuits, whose invariants, excluded goals and sweeps are those that a plain program finds by trying all states.

ghost use Rattle.std.specs.Prelude.{◌≡◌, ◌<◌, ◌≤◌, ◌^◌, ◌+◌, All, length, IfOk};
ghost use Rattle.aig_model.specs.LatchClauses.{IsLatchClause};
ghost use Rattle.unroll.specs.Frames.{vars_before};

use crate::all_states::{greatest as greatest_by_states, is_excluded};
use crate::all_steps::{Step, all_steps, count};
use crate::circuits::{CHAIN, RING, signals};
use crate::first_steps::first_steps;
use aig_ascii::read_aag;
use aig_model::{Bits, Circuit, LatchClause, LatchClauses, Signals};
use inv_prover::{Excluded, Grown, candidates, exclude, greatest};
use ketch_base::OutOfMemory;
use std::alloc::Global;
use sweep_search::{FoundGoals, sweep};

/// A circuit and its signals.
type Row = (&'static [u8], &'static [u8]);

const LEMMAS: u64 = 1000;

const ROWS: [Row; 14] = [
    (RING, b"l0\nl1"),
    (CHAIN, b"l1\nl2"),
    // an input toggles the latch
    (b"aag 5 1 1 0 3\n2\n4 10\n6 4 2\n8 5 3\n10 7 9\n", b"l0"),
    // counts to three, and begins anew
    (
        b"aag 5 0 2 0 3\n2 3\n4 10\n6 2 4\n8 3 5\n10 7 9\n",
        b"l0\nl1",
    ),
    // counts to two, and begins anew
    (b"aag 3 0 2 0 1\n2 6\n4 2\n6 3 5\n", b"l0\nl1"),
    // a free reset goes round
    (b"aag 2 0 2 0 0\n2 4 2\n4 2\n", b"l0\nl1"),
    // a latch that keeps whatever it starts with
    (b"aag 1 0 1 0 0\n2 2 2\n", b"l0"),
    // two free resets, of which a constraint wants that they agree
    (
        b"aag 6 1 2 0 3 0 1\n2\n4 2 4\n6 2 6\n13\n8 4 6\n10 5 7\n12 9 11\n",
        b"l0\nl1",
    ),
    // a constraint forbids the input
    (b"aag 2 1 1 0 0 0 1\n2\n4 2\n3\n", b"l0"),
    // a constraint is false after one step
    (b"aag 1 0 1 0 0 0 1\n2 3\n3\n", b"l0"),
    // a one goes round three latches
    (b"aag 3 0 3 0 0\n2 6 1\n4 2\n6 4\n", b"l0\nl1\nl2"),
    // two grants, of which the first has priority
    (b"aag 5 2 2 0 1\n2\n4\n6 2\n8 10\n10 3 4\n", b"l0\nl1"),
    // a latch that stays 1, and one that toggles while it does
    (b"aag 3 0 2 0 1\n2 2 1\n4 6\n6 2 5\n", b"l0\nl1"),
    // a constraint forbids the input twice in a row
    (b"aag 4 1 2 0 1 0 1\n2\n4 2\n8 4\n7\n6 2 4\n", b"l0\nl1"),
];

/// Whether these are the clauses that stay, in their order.
fn are_those(found: &LatchClauses, clauses: &LatchClauses, stays: &[bool]) -> bool {
    let mut place = 0;
    for (clause, stays) in clauses.as_slice().iter().zip(stays) {
        if *stays {
            if place >= found.len() || found.get(place).as_slice() != clause.as_slice() {
                return false;
            }
            place += 1;
        }
    }
    place == found.len()
}

/// Whether the prover excludes exactly the goals that no step shows from a state in which the clauses hold: `found` are
/// those of the candidates that stay.
fn excludes(
    alloc: Global,
    circuit: &Circuit,
    signals: &Signals,
    found: &LatchClauses,
    is_free: &[bool],
) -> Result<bool, OutOfMemory>
    requires circuit { signals.now.circuit ≡ circuit.now }
    requires clauses { All (IsLatchClause circuit.now) found.now }
    requires few { length found.now < 2 ^ 32 }
{
    let goals = signals.goals();
    if is_free.len() != goals as usize {
        return Ok(false);
    }
    for goal in 0..goals {
        let answer = exclude(alloc, circuit, signals, found, goal, LEMMAS)?;
        if matches!(answer, Excluded::Yes(_)) == is_free[goal as usize] {
            return Ok(false);
        }
    }
    Ok(true)
}

/// For each goal, whether a step shows it from a state in which the clauses that stay hold.
fn free_goals(
    alloc: Global,
    goals: u32,
    clauses: &[LatchClause],
    stays: &[bool],
    steps: &[Step],
) -> Result<Vec<bool>, OutOfMemory> {
    let mut is_free = Vec::new(alloc);
    for goal in 0..goals {
        is_free.push(!is_excluded(clauses, stays, steps, goal))?;
    }
    Ok(is_free)
}

/// Whether the greatest invariant and what it excludes are as the slow program has them.
fn is_proved(
    alloc: Global,
    circuit: &Circuit,
    signals: &Signals,
    steps: &[Step],
) -> Result<bool, OutOfMemory>
    requires { signals.now.circuit ≡ circuit.now }
{
    let tried = candidates(alloc, circuit, signals, 2)?;
    let stays = greatest_by_states(alloc, circuit, tried.as_slice(), steps)?;
    let is_free = free_goals(alloc, signals.goals(), tried.as_slice(), &stays, steps)?;
    match greatest(alloc, circuit, &tried, LEMMAS)? {
        Grown::Whole { clauses, kept: _ } => {
            if clauses.len() > 1000 || !are_those(&clauses, &tried, &stays) {
                return Ok(false);
            }
            excludes(alloc, circuit, signals, &clauses, &is_free)
        }
        Grown::Spent { .. } => Ok(false),
    }
}

/// Whether what is found is each goal that has a first step, at that step.
fn are_first(found: &FoundGoals, first: &[Option<u32>]) -> bool {
    for new in found.as_slice() {
        let goal = new.goal as usize;
        if goal >= first.len() || first[goal] != Some(new.step) {
            return false;
        }
    }
    found.len() == first.iter().filter(|step| step.is_some()).count()
}

/// Whether a sweep finds each goal at the step at which the slow program does.
fn is_swept(
    alloc: Global,
    circuit: &Circuit,
    signals: &Signals,
    steps: &[Step],
) -> Result<bool, OutOfMemory>
    requires { signals.now.circuit ≡ circuit.now }
{
    let depth = count(circuit.latches().len());
    let width = u64::from(circuit.top()) + 1;
    if (u64::from(depth) + 1).saturating_mul(width) > 4_000_000 {
        return Ok(false);
    }
    let first = first_steps(alloc, circuit, steps, signals.goals(), depth)?;
    let known = Bits::all_false(alloc, signals.goals() as usize)?;
    let swept = sweep(alloc, circuit, signals, &known, depth, LEMMAS, false)?;
    Ok(swept.spent.is_none() && are_first(&swept.found, &first))
}

fn is_as_by_states(alloc: Global, circuit: &Circuit, signals: &Signals) -> Result<bool, OutOfMemory>
    requires { signals.now.circuit ≡ circuit.now }
{
    let steps = all_steps(alloc, circuit, signals)?;
    Ok(is_proved(alloc, circuit, signals, &steps)? && is_swept(alloc, circuit, signals, &steps)?)
}

fn has_answers(alloc: Global, circuit: &Circuit, row: &Row) -> bool {
    match signals(alloc, row.1, circuit) {
        Some(signals) => is_as_by_states(alloc, circuit, &signals) == Ok(true),
        None => false,
    }
}

fn holds(alloc: Global, row: &Row) -> bool {
    match read_aag(alloc, row.0) {
        Ok(circuit) => has_answers(alloc, &circuit, row),
        Err(_) => false,
    }
}

#[test]
fn answers_are_those_of_all_states(rt: HostRuntime) {
    for (place, row) in ROWS.iter().enumerate() {
        assert!(rt; holds(rt.alloc(), row), "row {place}");
    }
}
