//! A lemma from a conflict.

ghost use Rattle.std.specs.Prelude.{◌≡◌, ◌+◌, ◌<◌, ℤ, List, map, neg_ℤ, IfOk, OnOk};
ghost use Rattle.cnf_base.specs.Status.{IsFalsifiedIn};
ghost use Rattle.sat_trail.specs.Trail.{lits};
ghost use Rattle.sat_watch.specs.Book.{IsClauseOf};
ghost use Rattle.sat_learn.specs.Learned.{IsLearned};
ghost use Rattle.sat_learn.specs.Reasons.{Follows};
ghost use Rattle.sat_incremental.specs.Entries.{live};
ghost use Rattle.sat_incremental.specs.Searching.{IsSearch, IsQuery, Continues, left};

use crate::entry::Entry;
use crate::search::{Search, next_id};
use cnf_base::{Clause, CnfLit};
use ketch_base::OutOfMemory;
use sat_learn::LearnedClause;
use sat_solver::{attach, bump, count_levels, proof_id_of};
use sat_trail::ClauseId;
use std::alloc::Global;

/// The clause that is learned from one that is false, and wasn't below the present level.
fn analyze(search: &mut Search, conflict: ClauseId) -> Result<LearnedClause, OutOfMemory>
    requires search { IsSearch search.old }
    requires above { 0 < search.old.premises.trail.level }
    requires conflict { (clause : List ℤ) × IsClauseOf search.old.premises.book.clauses conflict clause × IsFalsifiedIn (lits search.old.premises.trail.assignments) clause }
    ensures stays { search.new ≡ search.old }
    ensures learned { IfOk result (IsLearned search.old.premises.trail) }
    ensures follows { IfOk result (λ learned. Follows (live search.old.entries) (map neg_ℤ learned.lits) learned.hints) }
{
    let premises = &search.premises;
    premises.trail.is_well_formed();
    let id = proof_id_of(premises.proof_ids.as_slice(), conflict);
    let clause = premises.book.clause(conflict);
    let learned = search.analyzer.analyze(premises, clause, id)?;
    Ok(learned)
}

/// Goes back to where the lemma is unit, or to level 0 for a restart, and keeps it.
fn keep(
    alloc: Global,
    search: &mut Search,
    assumptions: &[CnfLit],
    learned: LearnedClause,
    lemmas: u64,
) -> Result<(), OutOfMemory>
    requires query { IsQuery assumptions.now lemmas search.old }
    requires room { search.old.learned < lemmas }
    requires learned { IsLearned search.old.premises.trail learned }
    requires follows { Follows (live search.old.entries) (map neg_ℤ learned.lits) learned.hints }
    ensures query { OnOk result (IsQuery assumptions.now lemmas search.new) }
    ensures continues { OnOk result (Continues search.old search.new) }
    ensures one { OnOk result (search.new.learned ≡ search.old.learned + 1) }
{
    let _ = assumptions;
    let _ = lemmas;
    let id = next_id(&search.entries)?;
    let lemma = Clause::from_slice(alloc, learned.lits())?;
    let levels = count_levels(&search.premises.trail, learned.lits());
    let level = search
        .restarts
        .level_after(levels, learned.backjump_level());
    search.premises.trail.is_well_formed();
    search.phases.note(&search.premises.trail, level);
    search.premises.trail.back_to(level);
    search.premises.trail.is_well_formed();
    attach(&mut search.premises, &lemma, id)?;
    bump(alloc, &mut search.queue, &mut search.ranks, &learned)?;
    search.from = search.queue.first();
    search.entries.push(Entry::Lemma {
        lits: lemma,
        hints: learned.into_hints(),
    })?;
    search.learned += 1;
    Ok(())
}

/// Learns from a clause that is false above level 0.
pub fn learn(
    alloc: Global,
    search: &mut Search,
    assumptions: &[CnfLit],
    conflict: ClauseId,
    lemmas: u64,
) -> Result<(), OutOfMemory>
    requires query { IsQuery assumptions.now lemmas search.old }
    requires above { 0 < search.old.premises.trail.level }
    requires conflict { (clause : List ℤ) × IsClauseOf search.old.premises.book.clauses conflict clause × IsFalsifiedIn (lits search.old.premises.trail.assignments) clause }
    requires room { search.old.learned < lemmas }
    ensures query { OnOk result (IsQuery assumptions.now lemmas search.new) }
    ensures continues { OnOk result (Continues search.old search.new) }
    ensures less { OnOk result (left lemmas search.new < left lemmas search.old) }
{
    let learned = analyze(search, conflict)?;
    keep(alloc, search, assumptions, learned, lemmas)?;
    Ok(())
}
