//! The calls.

ghost use Rattle.std.specs.Prelude.{◌≡◌, ℤ, List, ◌<◌, ◌≤◌, ◌^◌, length, IfOk};
ghost use Rattle.sat_solver.specs.Answer.{IsAnswer};
ghost use Rattle.sat_solver.specs.Steps.{IsSearchState, OutcomeIs};

use crate::analysis::proof_id_of;
use crate::answer::{Answer, Counted};
use crate::input_clauses::load;
use crate::model::values;
use crate::refutation::conclude;
use crate::search::Search;
use crate::step::{Outcome, take_step};
use cnf_base::{Clause, Formula};
use ketch_base::OutOfMemory;
use std::alloc::Global;

/// Takes steps until one ends the search.
fn take_steps(
    alloc: Global,
    formula: &Formula,
    search: &mut Search,
    lemmas: u64,
) -> Result<Outcome, OutOfMemory>
    requires { IsSearchState formula.now lemmas search.old }
    ensures { IfOk result (OutcomeIs formula.now lemmas search.new) }
{
    'steps: loop {
        if let Some(outcome) = take_step(alloc, formula, search, lemmas)? {
            return Ok(outcome);
        }
    }
}

/// What the end of a search says of the formula.
fn answer(
    alloc: Global,
    formula: &Formula,
    search: Search,
    lemmas: u64,
    outcome: Outcome,
) -> Result<Answer, OutOfMemory>
    requires { OutcomeIs formula.now lemmas search outcome }
    ensures { IfOk result (IsAnswer formula.now lemmas) }
{
    let _ = lemmas;
    match outcome {
        Outcome::Satisfied => {
            search.premises.trail.is_well_formed();
            search.premises.book.is_well_formed();
            Ok(Answer::Sat(values(alloc, &search.premises.trail)?))
        }
        Outcome::Refuted(id) => {
            let name = proof_id_of(search.premises.proof_ids.as_slice(), id);
            let clause = Clause::from_slice(alloc, search.premises.book.clause(id))?;
            Ok(Answer::Unsat(conclude(alloc, formula, search, clause.as_slice(), name)?))
        }
        Outcome::Spent => {
            search.premises.trail.is_well_formed();
            search.premises.book.is_well_formed();
            let Search { steps, .. } = search;
            Ok(Answer::Spent(steps))
        }
    }
}

/// Decides a formula, or spends a budget of lemmas on it, and counts the conflicts.
pub fn solve_counting(alloc: Global, formula: &Formula, lemmas: u64) -> Result<Counted, OutOfMemory>
    requires some { 1 ≤ lemmas }
    requires few { lemmas ≤ 2 ^ 60 }
    requires few_clauses { length formula.now.clauses < 2 ^ 60 }
    ensures answer { IfOk result (λ counted. IsAnswer formula.now lemmas counted.answer) }
    ensures conflicts { IfOk result (λ counted. counted.conflicts ≤ lemmas) }
{
    let mut search = Search::new(alloc, formula.vars())?;
    let refuted = load(alloc, formula, &mut search.premises)?;
    if let Some(index) = refuted {
        let clause = formula.clauses().get(index);
        let proof = conclude(alloc, formula, search, clause.as_slice(), index as u64 + 1)?;
        return Ok(Counted {
            answer: Answer::Unsat(proof),
            conflicts: 0,
        });
    }
    let outcome = take_steps(alloc, formula, &mut search, lemmas)?;
    let conflicts = search.conflicts;
    let answer = answer(alloc, formula, search, lemmas, outcome)?;
    Ok(Counted { answer, conflicts })
}

/// Decides a formula, or spends a budget of lemmas on it.
pub fn solve(alloc: Global, formula: &Formula, lemmas: u64) -> Result<Answer, OutOfMemory>
    requires some { 1 ≤ lemmas }
    requires few { lemmas ≤ 2 ^ 60 }
    requires few_clauses { length formula.now.clauses < 2 ^ 60 }
    ensures { IfOk result (IsAnswer formula.now lemmas) }
{
    let counted = solve_counting(alloc, formula, lemmas)?;
    Ok(counted.answer)
}
