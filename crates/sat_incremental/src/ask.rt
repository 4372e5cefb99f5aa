//! A question: the steps of a search, and what its end says.

ghost use Rattle.std.specs.Prelude.{◌≡◌, ◌<◌, ◌^◌, ℤ, List, None, IfOk, OnOk};
ghost use Rattle.cnf_base.specs.Meaning.{IsWithin};
ghost use Rattle.cnf_base.specs.Status.{IsFalsifiedIn};
ghost use Rattle.sat_trail.specs.Trail.{lits};
ghost use Rattle.sat_watch.specs.Book.{IsClauseOf};
ghost use Rattle.sat_incremental.specs.Entries.{GrowsByLemmas};
ghost use Rattle.sat_incremental.specs.Outcomes.{IsOutcome};
ghost use Rattle.sat_incremental.specs.Searching.{IsSearch, IsRefuted, IsAtEase, IsQuery, EndIs, Extends, session};

use crate::failed::fail;
use crate::give::refute;
use crate::outcome::Outcome;
use crate::search::Search;
use crate::step::{End, take_steps};
use cnf_base::{Clause, CnfLit};
use ketch_base::OutOfMemory;
use sat_solver::{proof_id_of, values};
use sat_trail::ClauseId;
use std::alloc::Global;

/// Adds the empty clause, since this clause of the book is false at level 0: its id.
fn refute_by(alloc: Global, search: &mut Search, conflict: ClauseId) -> Result<u64, OutOfMemory>
    requires search { IsSearch search.old }
    requires root { search.old.premises.trail.level ≡ 0 }
    requires conflict { (clause : List ℤ) × IsClauseOf search.old.premises.book.clauses conflict clause × IsFalsifiedIn (lits search.old.premises.trail.assignments) clause }
    ensures refuted { IfOk result (IsRefuted search.new) }
    ensures ease { OnOk result (IsAtEase search.new) }
    ensures extends { OnOk result (Extends search.old search.new) }
{
    let id = proof_id_of(search.premises.proof_ids.as_slice(), conflict);
    let clause = Clause::from_slice(alloc, search.premises.book.clause(conflict))?;
    let empty = refute(alloc, search, clause.as_slice(), id)?;
    Ok(empty)
}

/// What the end of a search says.
fn conclude(
    alloc: Global,
    search: &mut Search,
    assumptions: &[CnfLit],
    end: End,
    lemmas: u64,
) -> Result<Outcome, OutOfMemory>
    requires query { IsQuery assumptions.now lemmas search.old }
    requires none { search.old.refuted ≡ None }
    requires end { EndIs assumptions.now lemmas search.old end }
    ensures ease { OnOk result (IsAtEase search.new) }
    ensures extends { OnOk result (Extends search.old search.new) }
    ensures outcome { IfOk result (IsOutcome assumptions.now (session search.new)) }
    ensures spent { IfOk result (λ outcome. outcome ≡ Outcome.Spent → (search.new.entries ≡ search.old.entries) × (search.old.learned ≡ lemmas)) }
{
    match end {
        End::Satisfied => {
            search.premises.trail.is_well_formed();
            search.premises.book.is_well_formed();
            Ok(Outcome::Model(values(alloc, &search.premises.trail)?))
        }
        End::Refuted(conflict) => {
            let id = refute_by(alloc, search, conflict)?;
            Ok(Outcome::Core(id))
        }
        End::Failed(lit) => {
            let outcome = fail(alloc, search, assumptions, lit, lemmas)?;
            Ok(outcome)
        }
        End::Spent => Ok(Outcome::Spent),
    }
}

/// Searches for a model that makes each assumption true.
pub fn ask(
    alloc: Global,
    search: &mut Search,
    assumptions: &[CnfLit],
    lemmas: u64,
) -> Result<Outcome, OutOfMemory>
    requires search { IsSearch search.old }
    requires none { search.old.refuted ≡ None }
    requires in_range { IsWithin search.old.vars assumptions.now }
    ensures ease { OnOk result (IsAtEase search.new) }
    ensures extends { OnOk result (Extends search.old search.new) }
    ensures outcome { IfOk result (IsOutcome assumptions.now (session search.new)) }
    ensures spent { IfOk result (λ outcome. outcome ≡ Outcome.Spent → GrowsByLemmas search.old.entries lemmas search.new.entries) }
{
    search.back_to_root();
    search.learned = 0;
    search.premises.trail.is_well_formed();
    let end = take_steps(alloc, search, assumptions, lemmas)?;
    let outcome = conclude(alloc, search, assumptions, end, lemmas)?;
    Ok(outcome)
}
