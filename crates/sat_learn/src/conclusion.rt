//! The learned clause from what is marked in the end.

ghost use Rattle.std.specs.Prelude.{◌≡◌, ℕ, ℤ, List, ◌≤◌, ◌<◌, IsTrue, All, false, neg_ℤ, nat_abs, length, map, reverse, IsPermutation, slice_index_or, IfOk, OnOk};
ghost use Rattle.cnf_base.specs.Dimacs.{IsLiteral};
ghost use Rattle.cnf_base.specs.Status.{has};
ghost use Rattle.sat_trail.specs.Trail.{lits, IsTrail};
ghost use Rattle.sat_learn.specs.Learned.{AreAtRoot, IsLearned};
ghost use Rattle.sat_learn.specs.Reasons.{Follows};
ghost use Rattle.sat_learn.specs.Resolving.{Refutes};
ghost use Rattle.sat_learn.specs.Tracking.{IsGreatestLevel, IsMinimized, IsTaken, IsDrawn};

use crate::analysis::{Analysis, level_of_false};
use crate::learned_clause::{LearnedClause, new_learned};
use cnf_base::CnfLit;
use ketch_base::OutOfMemory;
use sat_trail::Trail;
use std::alloc::Global;

/// The greatest level of these literals, or 0.
fn greatest_level(trail: &Trail, kept: &[CnfLit]) -> u32
    requires trail { IsTrail trail.now }
    requires false_now { (l : ℤ) → IsTrue (has kept.now l) → IsTrue (has (lits trail.now.assignments) (neg_ℤ l)) }
    ensures { IsGreatestLevel trail.now kept.now result }
{
    let mut greatest = 0;
    for lit in kept {
        greatest = level_of_false(trail, *lit).max(greatest);
    }
    greatest
}

/// The level of a literal's variable; where it has none, 0.
fn level_or_zero(trail: &Trail, lit: CnfLit) -> u32 {
    let var = lit.var();
    if var > trail.vars() {
        return 0;
    }
    match trail.level_of(var) {
        Some(level) => level,
        None => 0,
    }
}

/// Sorts literals by their levels, the lowest first: a search that takes variables in this order finds more of its conflicts
/// early.
fn sort_by_level(trail: &Trail, kept: &mut [CnfLit])
    ensures { IsPermutation kept.old kept.new }
{
    kept.sort_unstable_by_key(|lit| level_or_zero(trail, *lit));
}

/// The first literal and those of the kept ones that are marked, each variable once. Unmarks them.
fn take_marked(
    alloc: Global,
    marks: &mut [bool],
    kept: &[CnfLit],
    first: CnfLit,
) -> Result<Vec<CnfLit>, OutOfMemory>
    requires first { nat_abs first < length marks.old }
    requires kept { All (λ l. nat_abs l < length marks.old) kept.now }
    ensures { IfOk result (λ taken. IsTaken marks.old marks.new kept.now first taken.items) }
{
    let mut taken = Vec::new(alloc);
    taken.push(first)?;
    marks[first.var() as usize] = false;
    for lit in kept {
        let index = lit.var() as usize;
        if marks[index] {
            marks[index] = false;
            taken.push(*lit)?;
        }
    }
    Ok(taken)
}

/// The negation of the literal at this place, and the kept ones that are marked. Unmarks all.
fn draw(
    alloc: Global,
    trail: &Trail,
    marks: &mut [bool],
    kept: &[CnfLit],
    place: u32,
) -> Result<Vec<CnfLit>, OutOfMemory>
    requires trail { IsTrail trail.now }
    requires minimized { IsMinimized trail.now marks.old kept.now place }
    ensures { IfOk result (λ drawn. IsDrawn trail.now marks.old marks.new place drawn.items) }
{
    let first = trail.at(place).negation();
    let drawn = take_marked(alloc, marks, kept, first)?;
    Ok(drawn)
}

/// The learned clause where the literal at this place and some of the kept ones are marked. Unmarks all.
pub fn conclude(
    alloc: Global,
    trail: &Trail,
    marks: &mut [bool],
    analysis: Analysis,
    roots: Vec<u32>,
    met: Vec<CnfLit>,
    place: u32,
) -> Result<LearnedClause, OutOfMemory>
    requires trail { IsTrail trail.now }
    requires minimized { IsMinimized trail.now marks.old analysis.kept.items place }
    requires roots { AreAtRoot trail.now.assignments roots.items }
    requires met { All (IsLiteral trail.now.vars) met.items }
    ensures learned { IfOk result (IsLearned trail.now) }
    ensures marks { OnOk result ((v : ℕ) → slice_index_or marks.new v false ≡ false) }
    ensures follows { IfOk result (λ learned. (live : List (ℕ × List ℤ)) → Refutes live (lits trail.now.assignments) marks.old (reverse analysis.hints.items)
        → Follows live (map neg_ℤ learned.lits) learned.hints) }
{
    let Analysis {
        mut kept,
        root_lits: _,
        hints,
        open_count: _,
    } = analysis;
    sort_by_level(trail, &mut kept);
    let drawn = draw(alloc, trail, marks, &kept, place)?;
    let backjump_level = greatest_level(trail, &drawn[1..]);
    Ok(new_learned(drawn, backjump_level, hints, roots, met))
}
