//! How much a proof has.

ghost use Rattle.std.specs.Prelude.{◌≡◌, length, min};
ghost use Rattle.solve_dimacs.specs.Tally.{hint_count, hints_in, is_lemma};
ghost use Rattle.sat_solver.specs.Answer.{lemma_count};

use lrat_text::{LratStep, Proof};

/// Whether the step adds a clause that isn't empty.
fn is_lemma(step: &LratStep) -> bool
    ensures { result ≡ is_lemma step.now }
{
    match step {
        LratStep::Add { lits, .. } => !lits.is_empty(),
        LratStep::Delete { .. } => false,
    }
}

/// How many lemmas.
pub fn lemmas(proof: &Proof) -> usize
    ensures { result ≡ lemma_count proof.now }
{
    proof
        .as_slice()
        .iter()
        .filter(|step| is_lemma(step))
        .count()
}

/// How many hints the step has.
fn step_hints(step: &LratStep) -> usize
    ensures { result ≡ hints_in step.now }
{
    match step {
        LratStep::Add { hints, .. } => hints.len(),
        LratStep::Delete { .. } => 0,
    }
}

/// How many hints all steps have; the count stops at 2^64 - 1.
pub fn hints(proof: &Proof) -> u64
    ensures { result ≡ min (hint_count proof.now) u64.MAX }
{
    let mut count = 0u64;
    for step in proof.as_slice() {
        count = count.saturating_add(step_hints(step) as u64);
    }
    count
}
