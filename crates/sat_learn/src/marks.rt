//! Marks on variables.

ghost use Rattle.std.specs.Prelude.{◌≡◌, ℕ, ◌+◌, ◌<◌, ◌≤◌, IsTrue, false, if◌then◌else◌, nat_eq, map, length, nat_abs, All, count_by, slice_index_or};
ghost use Rattle.std.specs.List.{list_any};
ghost use Rattle.sat_trail.specs.Trail.{IsTrail};
ghost use Rattle.sat_learn.specs.Resolving.{with_marks, AreBelow, IsLastMarked};
ghost use Rattle.sat_learn.specs.Tracking.{is_open};

use cnf_base::CnfLit;
use sat_trail::Trail;

/// Marks the variables of these literals.
pub fn mark_all(marks: &mut [bool], lits: &[CnfLit])
    requires { All (λ l. nat_abs l < length marks.old) lits.now }
    ensures { (v : ℕ) → slice_index_or marks.new v false ≡ with_marks lits.now marks.old v }
{
    for lit in lits {
        marks[lit.var() as usize] = true;
    }
}

/// Unmarks the variables of these literals.
pub fn unmark_all(marks: &mut [bool], lits: &[CnfLit])
    requires { All (λ l. nat_abs l < length marks.old) lits.now }
    ensures { (v : ℕ) → slice_index_or marks.new v false ≡ (if list_any (nat_eq v) (map nat_abs lits.now) then false else slice_index_or marks.old v false) }
{
    for lit in lits {
        marks[lit.var() as usize] = false;
    }
}

/// The place of the last marked literal, where each stands before this place.
pub fn last_marked(trail: &Trail, marks: &[bool], place: u32) -> u32
    requires trail { IsTrail trail.now }
    requires room { length marks.now ≡ trail.now.vars + 1 }
    requires in_range { place ≤ length trail.now.assignments }
    requires below { AreBelow trail.now.assignments marks.now place }
    requires some { 0 < count_by (is_open trail.now.level marks.now) trail.now.assignments }
    ensures before { result < place }
    ensures last { IsLastMarked trail.now marks.now result }
{
    let mut at = place - 1;
    while !marks[trail.at(at).var() as usize] {
        at -= 1;
    }
    at
}
