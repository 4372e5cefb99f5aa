//! The solver's answer to a formula, judged.

use crate::truth::satisfies;
use aig_model::Bits;
use cnf_base::Formula;
use lrat_check::{check_proof, check_spent};
use lrat_text::{LratStep, Proof};
use sat_solver::{Answer, solve, solve_counting};
use std::alloc::Global;
use std::process::Abort;
use std::test::Fail;

#[derive(Clone, Copy, Debug, PartialEq, Eq)]
pub enum Verdict {
    Sat,
    Unsat,
    Spent,
}

/// A verdict, the values of a model, of which bit v - 1 is that of variable v, the number of a proof's steps, and the
/// greatest variable whose lemma of one literal has more than 8 hints and is a hint of a longer lemma, or 0.
#[derive(Clone, Copy, Debug, PartialEq, Eq)]
pub struct Outcome {
    pub verdict: Verdict,
    pub values: u64,
    pub steps: usize,
    pub greatest_named: u32,
}

/// A limit of the solver, on lemmas and on clauses.
const MOST: u64 = 1 << 60;

fn values_of(bits: &Bits) -> u64 {
    let mut values = 0;
    for place in 0..bits.len() {
        if bits.get(place) {
            values |= 1u64 << (place % 64);
        }
    }
    values
}

fn judged_model(rt: &impl Abort, formula: &Formula, bits: &Bits) -> Outcome {
    let values = values_of(bits);
    assert_eq!(rt; bits.len(), formula.vars() as usize);
    assert!(rt; satisfies(formula, values));
    Outcome {
        verdict: Verdict::Sat,
        values,
        steps: 0,
        greatest_named: 0,
    }
}

/// The id, as a hint, and the variable of a step that adds a clause of one literal by more than 8 hints.
fn long_unit(step: &LratStep) -> Option<(i64, u32)> {
    let LratStep::Add { id, lits, hints } = step else {
        return None;
    };
    match lits.as_slice() {
        [lit] if hints.len() > 8 => Some((i64::try_from(*id).ok()?, lit.var())),
        _ => None,
    }
}

/// Whether a step adds a clause of several literals by a hint of this name.
fn rests_on(step: &LratStep, name: i64) -> bool {
    match step {
        LratStep::Add { lits, hints, .. } => lits.len() > 1 && hints.as_slice().contains(&name),
        LratStep::Delete { .. } => false,
    }
}

fn greatest_named(proof: &Proof) -> u32 {
    let mut greatest = 0;
    for step in proof.as_slice() {
        if let Some((name, var)) = long_unit(step)
            && proof.as_slice().iter().any(|later| rests_on(later, name))
        {
            greatest = var.max(greatest);
        }
    }
    greatest
}

/// What the solver answers, where a model makes each clause true and the checker accepts each proof.
pub fn outcome_of(
    rt: &impl Abort,
    alloc: Global,
    formula: &Formula,
    lemmas: u64,
) -> Result<Outcome, Fail> {
    assert!(rt; 1 <= lemmas);
    assert!(rt; lemmas <= MOST);
    assert!(rt; (formula.clauses().len() as u64) < MOST);
    match solve(alloc, formula, lemmas)? {
        Answer::Sat(bits) => Ok(judged_model(rt, formula, &bits)),
        Answer::Unsat(proof) => {
            check_proof(alloc, formula, &proof)?;
            assert!(rt; proof.len() as u64 <= lemmas + 1);
            Ok(Outcome {
                verdict: Verdict::Unsat,
                values: 0,
                steps: proof.len(),
                greatest_named: greatest_named(&proof),
            })
        }
        Answer::Spent(proof) => {
            check_spent(alloc, formula, lemmas, &proof)?;
            Ok(Outcome {
                verdict: Verdict::Spent,
                values: 0,
                steps: proof.len(),
                greatest_named: greatest_named(&proof),
            })
        }
    }
}

pub fn verdict_of(
    rt: &impl Abort,
    alloc: Global,
    formula: &Formula,
    lemmas: u64,
) -> Result<Verdict, Fail> {
    Ok(outcome_of(rt, alloc, formula, lemmas)?.verdict)
}

/// How many conflicts an answer takes.
pub fn conflicts_of(
    rt: &impl Abort,
    alloc: Global,
    formula: &Formula,
    lemmas: u64,
) -> Result<usize, Fail> {
    assert!(rt; 1 <= lemmas);
    assert!(rt; lemmas <= MOST);
    assert!(rt; (formula.clauses().len() as u64) < MOST);
    let counted = solve_counting(alloc, formula, lemmas)?;
    Ok(counted.conflicts)
}
