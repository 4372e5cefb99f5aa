//! The last step of a refutation.

ghost use Rattle.std.specs.Prelude.{◌≡◌, ◌+◌, ◌<◌, ◌≤◌, ◌^◌, ℕ, ℤ, List, length, IfOk};
ghost use Rattle.cnf_base.specs.Status.{IsFalsifiedIn};
ghost use Rattle.sat_trail.specs.Trail.{lits};
ghost use Rattle.sat_learn.specs.Reasons.{HasId};
ghost use Rattle.sat_solver.specs.Answer.{IsRefutation};
ghost use Rattle.sat_solver.specs.Ledger.{live};
ghost use Rattle.sat_solver.specs.SearchInvariant.{IsSearch};

use crate::search::Search;
use cnf_base::{Clause, CnfLit, Formula};
use ketch_base::OutOfMemory;
use lrat_text::{LratStep, Proof};
use std::alloc::Global;

/// The id of the next step.
pub fn next_id(formula: &Formula, steps: &Proof) -> u64
    requires few_clauses { length formula.now.clauses < 2 ^ 60 }
    requires few_steps { length steps.now ≤ 2 ^ 60 }
    ensures { result ≡ length formula.now.clauses + length steps.now + 1 }
{
    formula.clauses().len() as u64 + steps.len() as u64 + 1
}

/// The proof that ends with the empty clause, since a clause is false at level 0. `id` is its id in the proof.
pub fn conclude(
    alloc: Global,
    formula: &Formula,
    search: Search,
    clause: &[CnfLit],
    id: u64,
) -> Result<Proof, OutOfMemory>
    requires search { (done : List (List ℤ)) × IsSearch formula.now done search }
    requires at_root { search.premises.trail.level ≡ 0 }
    requires false_now { IsFalsifiedIn (lits search.premises.trail.assignments) clause.now }
    requires has_id { HasId (live formula.now search.steps) id clause.now }
    requires small { id < 2 ^ 62 }
    ensures { IfOk result (λ proof. (lemmas : ℕ) → length search.steps ≤ lemmas → IsRefutation formula.now lemmas proof) }
{
    let Search {
        premises,
        mut analyzer,
        steps,
        ..
    } = search;
    let hints = analyzer.refute(&premises, clause, id)?;
    let step = LratStep::Add {
        id: next_id(formula, &steps),
        lits: Clause::new(alloc),
        hints,
    };
    let mut proof = steps;
    proof.push(step)?;
    Ok(proof)
}
