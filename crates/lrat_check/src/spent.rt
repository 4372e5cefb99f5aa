//! Proofs that spend a number of lemmas without an end.

ghost use Rattle.std.specs.Prelude.{◌≡◌, None, IfOk, OnOk, IsOkUnless, MatchResult};
ghost use Rattle.lrat_check.specs.ClauseKeys.{TakesStep};
ghost use Rattle.lrat_text.specs.Spent.{SpentOn};
ghost use Rattle.lrat_check.specs.SpentFault.{spent_fault, spent_from, IsSpentFault};
ghost use Rattle.lrat_text.specs.Standing.{start};

use crate::checker::Checker;
use crate::fault::{AddFault, SpentFault};
use crate::key::{Keys, asked_keys, key_of, taken_keys};
use cnf_base::Formula;
use ketch_base::OutOfMemory;
use lrat_text::{LratStep, Proof};
use std::alloc::Global;

/// Judges the steps in order: each must be an addition that follows, of a lemma that no earlier clause says in the same
/// literals. Their number comes last.
pub fn check_spent(
    alloc: Global,
    formula: &Formula,
    lemmas: u64,
    proof: &Proof,
) -> Result<(), SpentFault>
    ensures spent { OnOk result (SpentOn formula.now lemmas proof.now) }
    ensures refused { SpentOn formula.now lemmas proof.now → IsOkUnless result SpentFault.OutOfMemory }
    ensures answer { MatchResult result (λ _. spent_fault formula.now lemmas proof.now ≡ None) (IsSpentFault (spent_fault formula.now lemmas proof.now)) }
{
    check_lemmas(alloc, formula, proof.as_slice())?;
    if proof.len() as u64 != lemmas {
        return Err(SpentFault::Count);
    }
    Ok(())
}

fn check_lemmas(alloc: Global, formula: &Formula, steps: &[LratStep]) -> Result<(), SpentFault>
    ensures { MatchResult result
        (λ _. spent_from 0 (start formula.now) formula.now.clauses steps.now ≡ None)
        (IsSpentFault (spent_from 0 (start formula.now) formula.now.clauses steps.now)) }
{
    let asked = asked_keys(alloc, steps)?;
    let mut taken = taken_keys(alloc, &asked, formula.clauses().as_slice())?;
    let mut checker = Checker::new(alloc, formula)?;
    for (place, step) in steps.iter().enumerate() {
        let number = place as u64 + 1;
        match checker.step(step) {
            Ok(()) => {}
            Err(AddFault::Kind(_)) => return Err(SpentFault::Proof { step: number }),
            Err(AddFault::OutOfMemory) => return Err(SpentFault::OutOfMemory),
        }
        if !take_lemma(alloc, &mut checker, &mut taken, step)? {
            return Err(SpentFault::Lemma { step: number });
        }
    }
    Ok(())
}

/// Whether a step adds a lemma: a clause that isn't empty, has no literal both ways, and whose key is not taken yet.
fn take_lemma(
    alloc: Global,
    checker: &mut Checker,
    taken: &mut Keys,
    step: &LratStep,
) -> Result<bool, OutOfMemory>
    ensures lemma { IfOk result (TakesStep taken.old taken.new step.now) }
    ensures same { checker.new ≡ checker.old }
{
    let LratStep::Add {
        id: _,
        lits,
        hints: _,
    } = step
    else {
        return Ok(false);
    };
    if lits.is_empty() || checker.is_tautology(lits)? {
        return Ok(false);
    }
    let fresh = taken.insert(key_of(alloc, lits.as_slice())?)?;
    Ok(fresh)
}
