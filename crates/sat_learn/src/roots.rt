//! Literals of level 0, which are resolved away.

ghost use Rattle.std.specs.Prelude.{◌≡◌, ℕ, ℤ, ◌+◌, ◌<◌, ◌≤◌, ◌⊎◌, IsTrue, true, false, neg_ℤ, nat_abs, length, slice_set, slice_index_or, Contains, IfNone, IfOk, IfSome, OnOk};
ghost use Rattle.cnf_base.specs.Status.{has};
ghost use Rattle.sat_trail.specs.Trail.{Assignment, IsTrail, lits, upto};
ghost use Rattle.sat_learn.specs.Premises.{AreExplained, ResolvesIn};
ghost use Rattle.sat_learn.specs.Learned.{AreAtRoot};
ghost use Rattle.sat_learn.specs.Resolving.{is_marked, StandsAt, AreRootsClear, AreRootsAmong, AreQueued, IsNextRoot, IsMarkedRoot, DifferAtRoots, with_marks};

use crate::antecedent::antecedent_of;
use crate::premises::Premises;
use crate::root_places::RootPlaces;
use crate::root_queue::RootQueue;
use cnf_base::CnfLit;
use ketch_base::OutOfMemory;
use sat_trail::Trail;
use std::alloc::Global;

/// The places of these literals, which are false.
fn queue_all(
    alloc: Global,
    trail: &Trail,
    places: &RootPlaces,
    met: &[CnfLit],
) -> Result<RootQueue, OutOfMemory>
    requires trail { IsTrail trail.now }
    requires false_now { (l : ℤ) → IsTrue (has met.now l) → IsTrue (has (lits trail.now.assignments) (neg_ℤ l)) }
    ensures { IfOk result (λ queue. (l : ℤ) (i : ℕ) (p : Assignment) → IsTrue (has met.now l) → StandsAt trail.now.assignments i p
        → nat_abs p.lit ≡ nat_abs l → Contains queue i) }
{
    let mut queue = RootQueue::new(alloc);
    for lit in met {
        queue.push(places.find(trail, lit.negation()))?;
    }
    Ok(queue)
}

/// Marks the variable of a literal that is false; its place joins the queue, unless it is marked already.
fn meet(
    trail: &Trail,
    places: &RootPlaces,
    marks: &mut [bool],
    queue: &mut RootQueue,
    lit: CnfLit,
) -> Result<(), OutOfMemory>
    requires trail { IsTrail trail.now }
    requires in_range { nat_abs lit < length marks.old }
    requires false_now { IsTrue (is_marked marks.old lit) ⊎ IsTrue (has (lits trail.now.assignments) (neg_ℤ lit)) }
    ensures marks { OnOk result (marks.new ≡ slice_set marks.old (nat_abs lit) true) }
    ensures queued { OnOk result ((place : ℕ) → AreQueued trail.now.assignments marks.old queue.old place → AreQueued trail.now.assignments marks.new queue.new place) }
{
    let index = lit.var() as usize;
    if marks[index] {
        return Ok(());
    }
    queue.push(places.find(trail, lit.negation()))?;
    marks[index] = true;
    Ok(())
}

/// Marks the variables of these literals, each of which is false or marked already.
fn meet_all(
    trail: &Trail,
    places: &RootPlaces,
    marks: &mut [bool],
    queue: &mut RootQueue,
    clause: &[CnfLit],
) -> Result<(), OutOfMemory>
    requires trail { IsTrail trail.now }
    requires room { length marks.old ≡ trail.now.vars + 1 }
    requires false_now { (l : ℤ) → IsTrue (has clause.now l) → IsTrue (is_marked marks.old l) ⊎ IsTrue (has (lits trail.now.assignments) (neg_ℤ l)) }
    ensures marks { OnOk result ((v : ℕ) → slice_index_or marks.new v false ≡ with_marks clause.now marks.old v) }
    ensures queued { OnOk result ((place : ℕ) → AreQueued trail.now.assignments marks.old queue.old place → AreQueued trail.now.assignments marks.new queue.new place) }
{
    for lit in clause {
        meet(trail, places, marks, queue, *lit)?;
    }
    Ok(())
}

/// The greatest place below this one whose literal is marked.
fn next_root(trail: &Trail, marks: &[bool], queue: &mut RootQueue, before: u32) -> Option<u32>
    requires trail { IsTrail trail.now }
    requires room { length marks.now ≡ trail.now.vars + 1 }
    requires within { before ≤ length (upto 0 trail.now.assignments) }
    requires clear { AreRootsClear trail.now.assignments marks.now before }
    requires queued { AreQueued trail.now.assignments marks.now queue.old before }
    ensures none { IfNone result (AreRootsClear trail.now.assignments marks.now 0) }
    ensures some { IfSome result (IsNextRoot trail.now.assignments marks.now queue.new before) }
{
    while let Some(place) = queue.pop() {
        if place < before && marks[trail.at(place).var() as usize] {
            return Some(place);
        }
    }
    None
}

/// Resolves the literal at this place, which is marked and of level 0, the last of those that are.
fn resolve_root(
    premises: &Premises,
    places: &RootPlaces,
    marks: &mut [bool],
    hints: &mut Vec<i64>,
    queue: &mut RootQueue,
    place: u32,
) -> Result<(), OutOfMemory>
    requires explained { AreExplained premises.now }
    requires room { length marks.old ≡ premises.now.trail.vars + 1 }
    requires root { IsMarkedRoot premises.now.trail.assignments marks.old place }
    requires clear { AreRootsClear premises.now.trail.assignments marks.old (place + 1) }
    requires queued { AreQueued premises.now.trail.assignments marks.old queue.old place }
    ensures clear { OnOk result (AreRootsClear premises.now.trail.assignments marks.new place) }
    ensures queued { OnOk result (AreQueued premises.now.trail.assignments marks.new queue.new place) }
    ensures others { OnOk result (DifferAtRoots premises.now.trail.assignments marks.old marks.new) }
    ensures resolves { OnOk result (ResolvesIn premises.now marks.old hints.old.items marks.new hints.new.items) }
{
    let found = antecedent_of(premises, place);
    hints.push(found.hint)?;
    meet_all(&premises.trail, places, marks, queue, found.lits)?;
    marks[premises.trail.at(place).var() as usize] = false;
    Ok(())
}

/// Resolves each literal of level 0 that is marked: their places, from the last to the first. Met are literals among which
/// those are whose variables are marked; no others of level 0 are walked but what these come from.
pub fn resolve_roots(
    alloc: Global,
    premises: &Premises,
    places: &RootPlaces,
    marks: &mut [bool],
    hints: &mut Vec<i64>,
    met: &[CnfLit],
) -> Result<Vec<u32>, OutOfMemory>
    requires explained { AreExplained premises.now }
    requires room { length marks.old ≡ premises.now.trail.vars + 1 }
    requires met { AreRootsAmong premises.now.trail.assignments marks.old met.now }
    ensures clear { OnOk result (AreRootsClear premises.now.trail.assignments marks.new 0) }
    ensures others { OnOk result (DifferAtRoots premises.now.trail.assignments marks.old marks.new) }
    ensures resolves { OnOk result (ResolvesIn premises.now marks.old hints.old.items marks.new hints.new.items) }
    ensures roots { IfOk result (λ roots. AreAtRoot premises.now.trail.assignments roots.items) }
{
    let mut roots = Vec::new(alloc);
    let mut queue = queue_all(alloc, &premises.trail, places, met)?;
    let mut before = premises.trail.len_upto(0);
    while let Some(place) = next_root(&premises.trail, marks, &mut queue, before) {
        before = place;
        roots.push(place)?;
        resolve_root(premises, places, marks, hints, &mut queue, place)?;
    }
    Ok(roots)
}
