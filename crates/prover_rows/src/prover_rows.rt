//! Invariants of small circuits, and the goals that they exclude.

ghost use Rattle.std.specs.Prelude.{◌≡◌, ◌<◌, ◌≤◌, ◌^◌, All, length};
ghost use Rattle.aig_model.specs.LatchClauses.{IsLatchClause};

use crate::circuits::{CHAIN, RING, are_clauses, signals};
use aig_ascii::read_aag;
use aig_model::{Circuit, LatchClauses, Signals};
use inv_prover::{Excluded, Grown, candidates, exclude, greatest};
use ketch_base::OutOfMemory;
use std::alloc::Global;

#[derive(Clone, Copy, Debug, PartialEq, Eq)]
enum Verdict {
    Yes,
    No,
    Spent,
}

/// A circuit, its signals, a strength, a budget of lemmas, the greatest invariant unless the budget is spent, and for
/// each goal whether it is excluded.
type Row = (
    &'static [u8],
    &'static [u8],
    u32,
    u64,
    Option<&'static [&'static [i32]]>,
    &'static [Verdict],
);

/// Whether two parities of three inputs differ.
const PARITIES: &[u8] =
    b"aag 18 3 0 1 15\n2\n4\n6\n36\n8 2 4\n10 3 5\n12 9 11\n14 12 6\n16 13 7\n18 15 17\n\
    20 4 6\n22 5 7\n24 21 23\n26 24 2\n28 25 3\n30 27 29\n32 18 30\n34 19 31\n36 33 35\n";

/// A latch keeps whether they did.
const KEPT_PARITIES: &[u8] =
    b"aag 19 3 1 0 15\n2\n4\n6\n38 36\n8 2 4\n10 3 5\n12 9 11\n14 12 6\n16 13 7\n18 15 17\n\
    20 4 6\n22 5 7\n24 21 23\n26 24 2\n28 25 3\n30 27 29\n32 18 30\n34 19 31\n36 33 35\n";

const ROWS: [Row; 9] = [
    (
        RING,
        b"l0\nl1",
        2,
        1000,
        Some(&[&[1, 2], &[-1, -2]]),
        &[Verdict::Yes, Verdict::No, Verdict::No, Verdict::Yes],
    ),
    // a clause of one latch is no invariant, since the other latch hands its value on
    (RING, b"l0", 1, 1000, Some(&[]), &[Verdict::No, Verdict::No]),
    // the last clause needs the first
    (
        CHAIN,
        b"l2",
        2,
        1000,
        Some(&[&[1, -2], &[1, -3], &[2, -3]]),
        &[Verdict::No, Verdict::No],
    ),
    // a constraint that is false
    (
        b"aag 1 0 1 0 0 0 1\n2 3\n0\n",
        b"l0",
        0,
        1000,
        Some(&[]),
        &[Verdict::Yes, Verdict::Yes],
    ),
    // a constraint that is false at reset
    (
        b"aag 1 0 1 0 0 0 1\n2 1\n2\n",
        b"l0",
        2,
        1000,
        Some(&[&[-1]]),
        &[Verdict::Yes, Verdict::Yes],
    ),
    // no latch
    (
        b"aag 0 0 0 1 0\n0\n",
        b"o0",
        2,
        1000,
        Some(&[]),
        &[Verdict::No, Verdict::Yes],
    ),
    // one lemma is too few, and many are enough
    (
        PARITIES,
        b"o0",
        2,
        1,
        Some(&[]),
        &[Verdict::No, Verdict::Spent],
    ),
    (KEPT_PARITIES, b"l0", 2, 1, None, &[]),
    (
        KEPT_PARITIES,
        b"l0",
        2,
        1000,
        Some(&[&[-1]]),
        &[Verdict::No, Verdict::Yes],
    ),
];

fn verdict_of(answer: &Excluded) -> Verdict {
    match answer {
        Excluded::Yes(_) => Verdict::Yes,
        Excluded::No { state: _, row: _ } => Verdict::No,
        Excluded::Spent(_) => Verdict::Spent,
    }
}

/// Whether the goals have these verdicts, one each.
fn are_excluded(
    alloc: Global,
    circuit: &Circuit,
    signals: &Signals,
    clauses: &LatchClauses,
    lemmas: u64,
    verdicts: &[Verdict],
) -> Result<bool, OutOfMemory>
    requires circuit { signals.now.circuit ≡ circuit.now }
    requires clauses { All (IsLatchClause circuit.now) clauses.now }
    requires few_clauses { length clauses.now < 2 ^ 32 }
    requires some { 1 ≤ lemmas }
    requires few { lemmas ≤ 2 ^ 60 }
{
    let goals = signals.goals();
    if verdicts.len() != goals as usize {
        return Ok(false);
    }
    for goal in 0..goals {
        let answer = exclude(alloc, circuit, signals, clauses, goal, lemmas)?;
        if verdict_of(&answer) != verdicts[goal as usize] {
            return Ok(false);
        }
    }
    Ok(true)
}

fn is_answered(
    alloc: Global,
    circuit: &Circuit,
    signals: &Signals,
    row: &Row,
) -> Result<bool, OutOfMemory>
    requires { signals.now.circuit ≡ circuit.now }
{
    let (_, _, strength, lemmas, expected, verdicts) = *row;
    if lemmas == 0 || lemmas > 1000 {
        return Ok(false);
    }
    let candidates = candidates(alloc, circuit, signals, strength)?;
    match (greatest(alloc, circuit, &candidates, lemmas)?, expected) {
        (Grown::Whole { clauses, kept: _ }, Some(expected)) => {
            if clauses.len() > 1000 || !are_clauses(&clauses, expected) {
                return Ok(false);
            }
            are_excluded(alloc, circuit, signals, &clauses, lemmas, verdicts)
        }
        (Grown::Spent { .. }, None) => Ok(true),
        _ => Ok(false),
    }
}

fn has_answer(alloc: Global, circuit: &Circuit, row: &Row) -> bool {
    match signals(alloc, row.1, circuit) {
        Some(signals) => is_answered(alloc, circuit, &signals, row) == Ok(true),
        None => false,
    }
}

fn holds(alloc: Global, row: &Row) -> bool {
    match read_aag(alloc, row.0) {
        Ok(circuit) => has_answer(alloc, &circuit, row),
        Err(_) => false,
    }
}

#[test]
fn invariants_exclude_goals(rt: HostRuntime) {
    for (place, row) in ROWS.iter().enumerate() {
        assert!(rt; holds(rt.alloc(), row), "row {place}");
    }
}
