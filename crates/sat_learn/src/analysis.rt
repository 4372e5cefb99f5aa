//! What is kept while a conflict is resolved.

ghost use Rattle.std.specs.Prelude.{◌≡◌, ℤ, ℕ, ◌+◌, ◌<◌, ◌≤◌, ◌⊎◌, IsTrue, true, false, neg_ℤ, nat_abs, [], length, slice_set, slice_index_or, OnOk};
ghost use Rattle.cnf_base.specs.Status.{has};
ghost use Rattle.sat_trail.specs.Trail.{lits, IsTrail};
ghost use Rattle.sat_learn.specs.Resolving.{is_marked, IsFalseAt, with_marks};
ghost use Rattle.sat_learn.specs.Tracking.{IsEarlier, IsTracked};

use cnf_base::CnfLit;
use ketch_base::OutOfMemory;
use sat_trail::Trail;
use std::alloc::Global;

/// The false literals of levels between 0 and the present one whose variables are marked, and those of level 0; the hints,
/// the last one first; how many variables of the present level are marked.
#[derive(Drop)]
pub struct Analysis {
    pub kept: Vec<CnfLit>,
    pub root_lits: Vec<CnfLit>,
    pub hints: Vec<i64>,
    pub open_count: u32,
}

pub fn new_analysis(alloc: Global) -> Analysis
    ensures kept { result.kept.items ≡ [] }
    ensures hints { result.hints.items ≡ [] }
    ensures root_lits { result.root_lits.items ≡ [] }
    ensures count { result.open_count ≡ 0 }
{
    Analysis {
        kept: Vec::new(alloc),
        root_lits: Vec::new(alloc),
        hints: Vec::new(alloc),
        open_count: 0,
    }
}

/// The level of a literal that is false.
pub fn level_of_false(trail: &Trail, lit: CnfLit) -> u32
    requires trail { IsTrail trail.now }
    requires false_now { IsTrue (has (lits trail.now.assignments) (neg_ℤ lit)) }
    ensures { IsFalseAt trail.now.assignments lit result }
{
    match trail.level_of(lit.var()) {
        Some(level) => level,
        None => unreachable!(),
    }
}

/// Marks the variable of a literal that is false, unless it is marked already.
fn note(
    trail: &Trail,
    marks: &mut [bool],
    analysis: &mut Analysis,
    lit: CnfLit,
) -> Result<(), OutOfMemory>
    requires trail { IsTrail trail.now }
    requires tracked { IsTracked trail.now marks.old analysis.old.kept.items analysis.old.root_lits.items analysis.old.open_count }
    requires in_range { nat_abs lit < length marks.old }
    requires false_now { IsTrue (is_marked marks.old lit) ⊎ IsTrue (has (lits trail.now.assignments) (neg_ℤ lit)) }
    ensures tracked { OnOk result (IsTracked trail.now marks.new analysis.new.kept.items analysis.new.root_lits.items analysis.new.open_count) }
    ensures marks { marks.new ≡ slice_set marks.old (nat_abs lit) true }
    ensures hints { analysis.new.hints ≡ analysis.old.hints }
    ensures count { analysis.old.open_count ≤ analysis.new.open_count }
    ensures stays { IsEarlier trail.now marks.old lit → analysis.new.open_count ≡ analysis.old.open_count }
{
    let index = lit.var() as usize;
    if marks[index] {
        return Ok(());
    }
    let level = level_of_false(trail, lit);
    marks[index] = true;
    if level == 0 {
        analysis.root_lits.push(lit)?;
    } else if level < trail.level() {
        analysis.kept.push(lit)?;
    } else {
        analysis.open_count += 1;
    }
    Ok(())
}

/// Marks the variables of these literals, each of which is false or marked already.
pub fn note_all(
    trail: &Trail,
    marks: &mut [bool],
    analysis: &mut Analysis,
    clause: &[CnfLit],
) -> Result<(), OutOfMemory>
    requires trail { IsTrail trail.now }
    requires tracked { IsTracked trail.now marks.old analysis.old.kept.items analysis.old.root_lits.items analysis.old.open_count }
    requires false_now { (l : ℤ) → IsTrue (has clause.now l) → IsTrue (is_marked marks.old l) ⊎ IsTrue (has (lits trail.now.assignments) (neg_ℤ l)) }
    ensures tracked { OnOk result (IsTracked trail.now marks.new analysis.new.kept.items analysis.new.root_lits.items analysis.new.open_count) }
    ensures marks { OnOk result ((v : ℕ) → slice_index_or marks.new v false ≡ with_marks clause.now marks.old v) }
    ensures hints { analysis.new.hints ≡ analysis.old.hints }
    ensures count { analysis.old.open_count ≤ analysis.new.open_count }
    ensures stays { OnOk result (((l : ℤ) → IsTrue (has clause.now l) → IsEarlier trail.now marks.old l) → analysis.new.open_count ≡ analysis.old.open_count) }
{
    for lit in clause {
        note(trail, marks, analysis, *lit)?;
    }
    Ok(())
}
