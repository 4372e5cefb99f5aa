//! A conflict resolved, from the clause that is false to what follows.

ghost use Rattle.std.specs.Prelude.{◌≡◌, ℕ, ℤ, List, ◌+◌, ◌-◌, ◌<◌, false, neg_ℤ, map, length, pos, [], slice_index_or, IfOk, OnOk};
ghost use Rattle.cnf_base.specs.Status.{IsFalsifiedIn};
ghost use Rattle.sat_trail.specs.Trail.{lits, upto};
ghost use Rattle.sat_learn.specs.Premises.{AreExplained, AreLive, ResolvesIn};
ghost use Rattle.sat_learn.specs.Reasons.{HasId, Follows};
ghost use Rattle.sat_learn.specs.Learned.{AreAtRoot, IsLearned};
ghost use Rattle.sat_learn.specs.Resolving.{AreRootsClear, DifferAtRoots};
ghost use Rattle.sat_learn.specs.Tracking.{IsTracked};
ghost use Rattle.sat_learn.specs.Visiting.{NoneVisited};

use crate::analysis::{Analysis, new_analysis, note_all};
use crate::conclusion::conclude;
use crate::first_uip::resolve;
use crate::learned_clause::{LearnedClause, in_order};
use crate::marks::mark_all;
use crate::minimize::{Visit, minimize_clause};
use crate::premises::Premises;
use crate::root_places::RootPlaces;
use crate::roots::resolve_roots;
use cnf_base::CnfLit;
use ketch_base::OutOfMemory;
use lrat_text::Hints;
use std::alloc::Global;

/// Resolves the literals of level 0 that are marked: their places, from the last to the first.
fn resolve_any_roots(
    alloc: Global,
    premises: &Premises,
    places: &RootPlaces,
    marks: &mut [bool],
    analysis: &mut Analysis,
) -> Result<Vec<u32>, OutOfMemory>
    requires explained { AreExplained premises.now }
    requires above { 0 < premises.now.trail.level }
    requires tracked { IsTracked premises.now.trail marks.old analysis.old.kept.items analysis.old.root_lits.items analysis.old.open_count }
    ensures clear { OnOk result (AreRootsClear premises.now.trail.assignments marks.new 0) }
    ensures others { OnOk result (DifferAtRoots premises.now.trail.assignments marks.old marks.new) }
    ensures kept { analysis.new.kept ≡ analysis.old.kept }
    ensures resolves { OnOk result (ResolvesIn premises.now marks.old analysis.old.hints.items marks.new analysis.new.hints.items) }
    ensures roots { IfOk result (λ roots. AreAtRoot premises.now.trail.assignments roots.items) }
{
    let Analysis {
        kept: _,
        root_lits,
        hints,
        open_count: _,
    } = analysis;
    let roots = resolve_roots(alloc, premises, places, marks, hints, root_lits)?;
    Ok(roots)
}

/// The learned clause of a conflict above level 0, where no variable is marked or visited before or after.
pub fn resolve_conflict(
    alloc: Global,
    premises: &Premises,
    places: &RootPlaces,
    marks: &mut [bool],
    visits: &mut [Visit],
    conflict: &[CnfLit],
    hint: i64,
) -> Result<LearnedClause, OutOfMemory>
    requires explained { AreExplained premises.now }
    requires above { 0 < premises.now.trail.level }
    requires room { length marks.old ≡ premises.now.trail.vars + 1 }
    requires room_too { length visits.old ≡ premises.now.trail.vars + 1 }
    requires unmarked { (v : ℕ) → slice_index_or marks.old v false ≡ false }
    requires unvisited { NoneVisited visits.old }
    requires false_now { IsFalsifiedIn (lits premises.now.trail.assignments) conflict.now }
    requires not_before { ¬ IsFalsifiedIn (lits (upto (premises.now.trail.level - 1) premises.now.trail.assignments)) conflict.now }
    ensures unmarked { OnOk result ((v : ℕ) → slice_index_or marks.new v false ≡ false) }
    ensures unvisited { OnOk result (NoneVisited visits.new) }
    ensures learned { IfOk result (IsLearned premises.now.trail) }
    ensures follows { IfOk result (λ learned. (live : List (ℕ × List ℤ)) (id : ℕ) → hint ≡ pos id → AreLive live premises.now
        → HasId live id conflict.now → Follows live (map neg_ℤ learned.lits) learned.hints) }
{
    let mut analysis = new_analysis(alloc);
    analysis.hints.push(hint)?;
    note_all(&premises.trail, marks, &mut analysis, conflict)?;
    let mut met = Vec::new(alloc);
    let place = resolve(premises, marks, &mut analysis, &mut met)?;
    minimize_clause(alloc, premises, marks, visits, &mut analysis)?;
    let roots = resolve_any_roots(alloc, premises, places, marks, &mut analysis)?;
    let learned = conclude(alloc, &premises.trail, marks, analysis, roots, met, place)?;
    Ok(learned)
}

/// The hints by which the empty clause follows at level 0, where no variable is marked before or after.
pub fn refute_marked(
    alloc: Global,
    premises: &Premises,
    places: &RootPlaces,
    marks: &mut [bool],
    conflict: &[CnfLit],
    hint: i64,
) -> Result<Hints, OutOfMemory>
    requires explained { AreExplained premises.now }
    requires at_root { premises.now.trail.level ≡ 0 }
    requires room { length marks.old ≡ premises.now.trail.vars + 1 }
    requires unmarked { (v : ℕ) → slice_index_or marks.old v false ≡ false }
    requires false_now { IsFalsifiedIn (lits premises.now.trail.assignments) conflict.now }
    ensures unmarked { OnOk result ((v : ℕ) → slice_index_or marks.new v false ≡ false) }
    ensures follows { IfOk result (λ hints. (live : List (ℕ × List ℤ)) (id : ℕ) → hint ≡ pos id → AreLive live premises.now
        → HasId live id conflict.now → Follows live [] hints) }
{
    let mut hints = Vec::new(alloc);
    hints.push(hint)?;
    mark_all(marks, conflict);
    resolve_roots(alloc, premises, places, marks, &mut hints, conflict)?;
    Ok(in_order(hints))
}
