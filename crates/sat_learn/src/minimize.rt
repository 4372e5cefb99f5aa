//! Literals that the others imply, found by a walk on which no proof rests, and resolved away one by one.

ghost use Rattle.std.specs.Prelude.{◌≡◌, ℕ, ℤ, [], ◌∷◌, ◌++◌, ◌+◌, ◌<◌, ◌≤◌, IsTrue, neg_ℤ, nat_abs, length, slice_set, IfOk, OnOk};
ghost use Rattle.cnf_base.specs.Status.{has};
ghost use Rattle.sat_trail.specs.Trail.{lits, IsTrail};
ghost use Rattle.sat_learn.specs.Premises.{AreExplained, ResolvesIn};
ghost use Rattle.sat_learn.specs.Resolving.{is_marked};
ghost use Rattle.sat_learn.specs.Tracking.{IsTracked, IsFirstUip};
ghost use Rattle.sat_learn.specs.Visiting.{NoneVisited, AreVisitsOf};

use crate::analysis::{Analysis, level_of_false, note_all};
use crate::antecedent::{DEPTH, find_antecedent};
use crate::premises::Premises;
use cnf_base::CnfLit;
use ketch_base::OutOfMemory;
use sat_trail::Trail;
use std::alloc::Global;

/// What a walk found of a variable.
#[derive(Clone, Copy, Debug)]
pub enum Visit {
    Unknown,
    /// All that it comes from is marked, of level 0, or removable.
    Removable,
    Stays,
}

/// Resolves a marked literal with its antecedent, if it has one and is of a level below the present one.
fn resolve_earlier(
    premises: &Premises,
    marks: &mut [bool],
    analysis: &mut Analysis,
    lit: CnfLit,
) -> Result<(), OutOfMemory>
    requires explained { AreExplained premises.now }
    requires tracked { IsTracked premises.now.trail marks.old analysis.old.kept.items analysis.old.root_lits.items analysis.old.open_count }
    requires false_now { IsTrue (has (lits premises.now.trail.assignments) (neg_ℤ lit)) }
    requires marked { IsTrue (is_marked marks.old lit) }
    ensures tracked { OnOk result (IsTracked premises.now.trail marks.new analysis.new.kept.items analysis.new.root_lits.items analysis.new.open_count) }
    ensures count { OnOk result (analysis.new.open_count ≡ analysis.old.open_count) }
    ensures first_uip { OnOk result ((place : ℕ) → IsFirstUip premises.now.trail marks.old place → IsFirstUip premises.now.trail marks.new place) }
    ensures resolves { OnOk result (ResolvesIn premises.now marks.old analysis.old.hints.items marks.new analysis.new.hints.items) }
{
    if level_of_false(&premises.trail, lit) >= premises.trail.level() {
        return Ok(());
    }
    match find_antecedent(premises, lit.var()) {
        None => Ok(()),
        Some(found) => {
            analysis.hints.push(found.hint)?;
            note_all(&premises.trail, marks, analysis, found.lits)?;
            marks[lit.var() as usize] = false;
            Ok(())
        }
    }
}

/// Resolves the literal away where the walk found that it can be, and forgets what it found.
fn resolve_if_removable(
    premises: &Premises,
    marks: &mut [bool],
    visits: &mut [Visit],
    analysis: &mut Analysis,
    lit: CnfLit,
) -> Result<(), OutOfMemory>
    requires explained { AreExplained premises.now }
    requires tracked { IsTracked premises.now.trail marks.old analysis.old.kept.items analysis.old.root_lits.items analysis.old.open_count }
    requires room { length visits.old ≡ premises.now.trail.vars + 1 }
    requires false_now { IsTrue (has (lits premises.now.trail.assignments) (neg_ℤ lit)) }
    ensures visits { visits.new ≡ slice_set visits.old (nat_abs lit) Visit.Unknown }
    ensures tracked { OnOk result (IsTracked premises.now.trail marks.new analysis.new.kept.items analysis.new.root_lits.items analysis.new.open_count) }
    ensures count { OnOk result (analysis.new.open_count ≡ analysis.old.open_count) }
    ensures first_uip { OnOk result ((place : ℕ) → IsFirstUip premises.now.trail marks.old place → IsFirstUip premises.now.trail marks.new place) }
    ensures resolves { OnOk result (ResolvesIn premises.now marks.old analysis.old.hints.items marks.new analysis.new.hints.items) }
{
    let index = lit.var() as usize;
    let found = visits[index];
    visits[index] = Visit::Unknown;
    if !marks[index] {
        return Ok(());
    }
    match found {
        Visit::Unknown => Ok(()),
        Visit::Stays => Ok(()),
        Visit::Removable => {
            resolve_earlier(premises, marks, analysis, lit)?;
            Ok(())
        }
    }
}

/// Resolves away what the walk visited and found removable, from the last to the first.
fn resolve_visited(
    premises: &Premises,
    marks: &mut [bool],
    visits: &mut [Visit],
    analysis: &mut Analysis,
    visited: &[CnfLit],
) -> Result<(), OutOfMemory>
    requires explained { AreExplained premises.now }
    requires tracked { IsTracked premises.now.trail marks.old analysis.old.kept.items analysis.old.root_lits.items analysis.old.open_count }
    requires room { length visits.old ≡ premises.now.trail.vars + 1 }
    requires visits { AreVisitsOf visited.now visits.old }
    requires false_now { (l : ℤ) → IsTrue (has visited.now l) → IsTrue (has (lits premises.now.trail.assignments) (neg_ℤ l)) }
    ensures unvisited { OnOk result (NoneVisited visits.new) }
    ensures tracked { OnOk result (IsTracked premises.now.trail marks.new analysis.new.kept.items analysis.new.root_lits.items analysis.new.open_count) }
    ensures count { OnOk result (analysis.new.open_count ≡ analysis.old.open_count) }
    ensures first_uip { OnOk result ((place : ℕ) → IsFirstUip premises.now.trail marks.old place → IsFirstUip premises.now.trail marks.new place) }
    ensures resolves { OnOk result (ResolvesIn premises.now marks.old analysis.old.hints.items marks.new analysis.new.hints.items) }
{
    let mut index = visited.len();
    while index > 0 {
        index -= 1;
        resolve_if_removable(premises, marks, visits, analysis, visited[index])?;
    }
    Ok(())
}

/// A level's place among 64.
fn bit_of(level: u32) -> u64 {
    1 << (level % 64)
}

/// The levels of these literals, folded into 64.
fn levels_of(trail: &Trail, kept: &[CnfLit]) -> u64
    requires trail { IsTrail trail.now }
    requires false_now { (l : ℤ) → IsTrue (has kept.now l) → IsTrue (has (lits trail.now.assignments) (neg_ℤ l)) }
{
    let mut levels = 0;
    for lit in kept {
        levels |= bit_of(level_of_false(trail, *lit));
    }
    levels
}

/// Notes what was found of a literal's variable.
fn note_visit(
    visits: &mut [Visit],
    visited: &mut Vec<CnfLit>,
    lit: CnfLit,
    removable: bool,
) -> Result<(), OutOfMemory>
    requires in_range { nat_abs lit < length visits.old }
    requires visits { AreVisitsOf visited.old.items visits.old }
    ensures visits { OnOk result (AreVisitsOf visited.new.items visits.new) }
    ensures visited { OnOk result (visited.new.items ≡ visited.old.items ++ lit ∷ []) }
{
    visits[lit.var() as usize] = if removable {
        Visit::Removable
    } else {
        Visit::Stays
    };
    visited.push(lit)?;
    Ok(())
}

/// Whether the literal needn't stand in the clause, or is marked. What is visited on the way is noted, each literal after
/// those that it comes from.
///
/// At a level that is not among `levels` no literal is marked, so a literal of this level is not implied by marked ones.
fn walk(
    premises: &Premises,
    marks: &[bool],
    visits: &mut [Visit],
    visited: &mut Vec<CnfLit>,
    levels: u64,
    lit: CnfLit,
    depth: u32,
) -> Result<bool, OutOfMemory>
    requires explained { AreExplained premises.now }
    requires room { length marks.now ≡ premises.now.trail.vars + 1 }
    requires room_too { length visits.old ≡ premises.now.trail.vars + 1 }
    requires visits { AreVisitsOf visited.old.items visits.old }
    requires false_now { IsTrue (has (lits premises.now.trail.assignments) (neg_ℤ lit)) }
    requires all_false { (l : ℤ) → IsTrue (has visited.old.items l) → IsTrue (has (lits premises.now.trail.assignments) (neg_ℤ l)) }
    ensures visits { OnOk result (AreVisitsOf visited.new.items visits.new) }
    ensures all_false { OnOk result ((l : ℤ) → IsTrue (has visited.new.items l) → IsTrue (has (lits premises.now.trail.assignments) (neg_ℤ l))) }
{
    let index = lit.var() as usize;
    match visits[index] {
        Visit::Removable => return Ok(true),
        Visit::Stays => return Ok(marks[index]),
        Visit::Unknown => {}
    }
    let level = level_of_false(&premises.trail, lit);
    if level == 0 {
        return Ok(true);
    }
    if depth == 0 || levels & bit_of(level) == 0 {
        return Ok(marks[index]);
    }
    let Some(found) = find_antecedent(premises, lit.var()) else {
        return Ok(marks[index]);
    };
    let mut removable = true;
    for other in found.lits {
        if other.var() != lit.var() {
            let goes = walk(premises, marks, visits, visited, levels, *other, depth - 1)?;
            if !goes {
                removable = false;
                break;
            }
        }
    }
    let goes = removable || marks[index];
    note_visit(visits, visited, lit, removable)?;
    Ok(goes)
}

/// Walks down from each of these literals: what was visited, each literal after those that it comes from.
fn walk_all(
    alloc: Global,
    premises: &Premises,
    marks: &[bool],
    visits: &mut [Visit],
    kept: &[CnfLit],
) -> Result<Vec<CnfLit>, OutOfMemory>
    requires explained { AreExplained premises.now }
    requires room { length marks.now ≡ premises.now.trail.vars + 1 }
    requires room_too { length visits.old ≡ premises.now.trail.vars + 1 }
    requires unvisited { NoneVisited visits.old }
    requires false_now { (l : ℤ) → IsTrue (has kept.now l) → IsTrue (has (lits premises.now.trail.assignments) (neg_ℤ l)) }
    ensures visits { IfOk result (λ visited. AreVisitsOf visited.items visits.new) }
    ensures all_false { IfOk result (λ visited. (l : ℤ) → IsTrue (has visited.items l) → IsTrue (has (lits premises.now.trail.assignments) (neg_ℤ l))) }
{
    let levels = levels_of(&premises.trail, kept);
    let mut visited = Vec::new(alloc);
    for lit in kept {
        walk(premises, marks, visits, &mut visited, levels, *lit, DEPTH)?;
    }
    Ok(visited)
}

/// Resolves away the kept literals that the other marked ones imply. Nothing is known of a variable before or after.
pub fn minimize_clause(
    alloc: Global,
    premises: &Premises,
    marks: &mut [bool],
    visits: &mut [Visit],
    analysis: &mut Analysis,
) -> Result<(), OutOfMemory>
    requires explained { AreExplained premises.now }
    requires tracked { IsTracked premises.now.trail marks.old analysis.old.kept.items analysis.old.root_lits.items analysis.old.open_count }
    requires room { length visits.old ≡ premises.now.trail.vars + 1 }
    requires unvisited { NoneVisited visits.old }
    ensures unvisited { OnOk result (NoneVisited visits.new) }
    ensures tracked { OnOk result (IsTracked premises.now.trail marks.new analysis.new.kept.items analysis.new.root_lits.items analysis.new.open_count) }
    ensures count { OnOk result (analysis.new.open_count ≡ analysis.old.open_count) }
    ensures first_uip { OnOk result ((place : ℕ) → IsFirstUip premises.now.trail marks.old place → IsFirstUip premises.now.trail marks.new place) }
    ensures resolves { OnOk result (ResolvesIn premises.now marks.old analysis.old.hints.items marks.new analysis.new.hints.items) }
{
    let visited = walk_all(alloc, premises, marks, visits, &analysis.kept)?;
    resolve_visited(premises, marks, visits, analysis, &visited)?;
    Ok(())
}
