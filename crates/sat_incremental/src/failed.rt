//! An assumption that is false: the lemma that tells which others make it so.

ghost use Rattle.std.specs.Prelude.{◌≡◌, ◌≢◌, ℕ, ℤ, neg_ℤ, List, Some, IsTrue, IsSome, IfOk, OnOk};
ghost use Rattle.cnf_base.specs.Status.{has};
ghost use Rattle.lrat_text.specs.Standing.{clause_at};
ghost use Rattle.sat_trail.specs.Trail.{Assignment, lits};
ghost use Rattle.sat_learn.specs.Resolving.{StandsAt};
ghost use Rattle.sat_learn.specs.Implying.{ImpliesByDecisions};
ghost use Rattle.sat_incremental.specs.Entries.{live};
ghost use Rattle.sat_incremental.specs.Outcomes.{IsOutcome};
ghost use Rattle.sat_incremental.specs.Searching.{IsSearch, IsQuery, Extends, session};

use crate::entry::Entry;
use crate::outcome::Outcome;
use crate::search::{Search, next_id};
use cnf_base::{Clause, CnfLit};
use ketch_base::OutOfMemory;
use std::alloc::Global;

/// Adds the lemma of a literal that is true but no decision, and of the negations of decisions that imply it: its id.
fn add_implication(alloc: Global, search: &mut Search, lit: CnfLit) -> Result<u64, OutOfMemory>
    requires search { IsSearch search.old }
    requires implied { (place : ℕ) × (p : Assignment) × StandsAt search.old.premises.trail.assignments place p × (p.lit ≡ lit) × IsSome p.reason }
    ensures search { OnOk result (IsSearch search.new) }
    ensures extends { OnOk result (Extends search.old search.new) }
    ensures refuted { OnOk result (search.new.refuted ≡ search.old.refuted) }
    ensures lemma { IfOk result (λ id. (clause : List ℤ) × (clause_at (live search.new.entries) id ≡ Some clause) × ImpliesByDecisions search.old.premises.trail.assignments lit clause) }
{
    let found = search.analyzer.imply(&search.premises, lit)?;
    let id = next_id(&search.entries)?;
    let lits = Clause::from_slice(alloc, &found.lits)?;
    search.entries.push(Entry::Lemma {
        lits,
        hints: found.hints,
    })?;
    Ok(id)
}

/// What follows where an assumption is false.
pub fn fail(
    alloc: Global,
    search: &mut Search,
    assumptions: &[CnfLit],
    lit: CnfLit,
    lemmas: u64,
) -> Result<Outcome, OutOfMemory>
    requires query { IsQuery assumptions.now lemmas search.old }
    requires assumed { IsTrue (has assumptions.now lit) }
    requires failed { IsTrue (has (lits search.old.premises.trail.assignments) (neg_ℤ lit)) }
    ensures search { OnOk result (IsSearch search.new) }
    ensures extends { OnOk result (Extends search.old search.new) }
    ensures refuted { OnOk result (search.new.refuted ≡ search.old.refuted) }
    ensures outcome { IfOk result (IsOutcome assumptions.now (session search.new)) }
    ensures not_spent { IfOk result (λ outcome. outcome ≢ Outcome.Spent) }
{
    let _ = assumptions;
    let _ = lemmas;
    search.premises.trail.is_well_formed();
    match search.premises.trail.reason_of(lit.var()) {
        None => Ok(Outcome::Clash),
        Some(_) => {
            let id = add_implication(alloc, search, lit.negation())?;
            Ok(Outcome::Core(id))
        }
    }
}
