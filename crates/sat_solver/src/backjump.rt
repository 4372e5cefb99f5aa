//! A lemma, into the proof, the book and the queue.

ghost use Rattle.std.specs.Prelude.{◌≡◌, ◌+◌, ◌<◌, ◌≤◌, ◌^◌, ◌++◌, ℤ, List, nat_abs, All, IsPermutation, length, OnOk};
ghost use Rattle.cnf_base.specs.Dimacs.{IsLiteral};
ghost use Rattle.sat_trail.specs.Trail.{Assignment, upto};
ghost use Rattle.sat_watch.specs.Ready.{IsReady};
ghost use Rattle.sat_solver.specs.Decision.{IsPassed};
ghost use Rattle.sat_solver.specs.Attachment.{CanAttach, Attaches};
ghost use Rattle.sat_solver.specs.Ledger.{earlier};
ghost use Rattle.sat_solver.specs.SearchInvariant.{IsSearch};
ghost use Rattle.sat_solver.specs.LearnedLemma.{IsLearnedFrom};

use crate::ranks::Ranks;
use crate::refutation::next_id;
use crate::restart::count_levels;
use crate::search::Search;
use cnf_base::{Clause, CnfLit, Formula};
use ketch_base::OutOfMemory;
use lrat_text::LratStep;
use sat_learn::{LearnedClause, Premises};
use sat_queue::VarQueue;
use sat_trail::ClauseId;
use std::alloc::Global;

/// Sorts literals by the order of their variables in the queue.
fn sort_by_queue(ranks: &Ranks, lits: &mut [CnfLit])
    ensures { IsPermutation lits.old lits.new }
{
    lits.sort_unstable_by_key(|lit| ranks.of(lit.var()));
}

/// Brings the variables of these literals to the front of the queue, from the last to the first.
fn bring_to_front(queue: &mut VarQueue, ranks: &mut Ranks, lits: &[CnfLit])
    requires in_range { All (IsLiteral (length queue.old)) lits.now }
    requires ranks { ranks.old ≡ length queue.old }
    ensures queue { length queue.new ≡ length queue.old }
    ensures ranks { ranks.new ≡ ranks.old }
{
    for index in (0..lits.len()).rev() {
        let var = lits[index].var();
        queue.is_well_formed();
        queue.to_front(var);
        ranks.note_front(var);
    }
}

/// Brings the variables that an analysis met to the front of the queue. Among themselves they keep their order, so that the
/// search goes on with those that were met often (Biere and Fröhlich, 2015).
pub fn bump(
    alloc: Global,
    queue: &mut VarQueue,
    ranks: &mut Ranks,
    learned: &LearnedClause,
) -> Result<(), OutOfMemory>
    requires met { All (IsLiteral (length queue.old)) learned.now.met }
    requires ranks { ranks.old ≡ length queue.old }
    ensures queue { length queue.new ≡ length queue.old }
    ensures ranks { ranks.new ≡ ranks.old }
{
    let mut met = Vec::from_slice(alloc, learned.met())?;
    sort_by_queue(ranks, &mut met);
    bring_to_front(queue, ranks, &met);
    Ok(())
}

/// A unit clause goes on the trail, and any other into the book. `id` is its id in the proof.
pub fn attach(premises: &mut Premises, clause: &Clause, id: u64) -> Result<(), OutOfMemory>
    requires vars { premises.old.trail.vars ≡ premises.old.book.vars }
    requires fits { CanAttach clause.now premises.old.book premises.old.trail }
    ensures { OnOk result (Attaches clause.now id premises.old.book premises.old.trail premises.old.proof_ids.items premises.new.book premises.new.trail premises.new.proof_ids.items) }
{
    match clause.as_slice() {
        [lit] => premises.trail.assume(*lit, ClauseId::Unit(id)),
        _ => {
            premises.book.add(clause, &premises.trail)?;
            premises.proof_ids.push(id)?;
        }
    }
    Ok(())
}

/// Goes back to where the lemma is unit, or to level 0 for a restart, and adds it to the proof and to the clauses.
pub fn add_lemma(
    alloc: Global,
    formula: &Formula,
    search: &mut Search,
    learned: LearnedClause,
) -> Result<(), OutOfMemory>
    requires search { IsSearch formula.now (earlier formula.now search.old.steps) search.old }
    requires ready { IsReady search.old.premises.book search.old.premises.trail }
    requires learned_from { IsLearnedFrom formula.now search.old.steps search.old.premises.trail learned }
    requires room { length search.old.steps < 2 ^ 60 }
    ensures search { OnOk result (IsSearch formula.now (earlier formula.now search.new.steps) search.new) }
    ensures ready { OnOk result (IsReady search.new.premises.book search.new.premises.trail) }
    ensures one { OnOk result (length search.new.steps ≡ length search.old.steps + 1) }
    ensures passed { OnOk result (IsPassed search.new.queue search.new.premises.trail.assignments search.new.from) }
    ensures roots { OnOk result ((more : List Assignment) × (upto 0 search.new.premises.trail.assignments ≡ upto 0 search.old.premises.trail.assignments ++ more)) }
{
    let id = next_id(formula, &search.steps);
    let lemma = Clause::from_slice(alloc, learned.lits())?;
    search.conflicts += 1;
    let levels = count_levels(&search.premises.trail, learned.lits());
    let level = search
        .restarts
        .level_after(levels, learned.backjump_level());
    search.premises.trail.is_well_formed();
    search.phases.note(&search.premises.trail, level);
    search.premises.trail.back_to(level);
    search.premises.trail.is_well_formed();
    attach(&mut search.premises, &lemma, id)?;
    bump(alloc, &mut search.queue, &mut search.ranks, &learned)?;
    search.from = search.queue.first();
    search.steps.push(LratStep::Add {
        id,
        lits: lemma,
        hints: learned.into_hints(),
    })?;
    Ok(())
}
