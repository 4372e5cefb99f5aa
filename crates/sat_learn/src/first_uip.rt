//! The walk back over the present level, to the first unique implication point.

ghost use Rattle.std.specs.Prelude.{◌≡◌, ◌<◌, [], All, length, OnOk, IfOk};
ghost use Rattle.cnf_base.specs.Dimacs.{IsLiteral};
ghost use Rattle.sat_learn.specs.Premises.{AreExplained, ResolvesIn};
ghost use Rattle.sat_learn.specs.Resolving.{AreBelow, IsLastMarked};
ghost use Rattle.sat_learn.specs.Tracking.{IsTracked};

use crate::analysis::{Analysis, note_all};
use crate::antecedent::antecedent_of;
use crate::marks::last_marked;
use crate::premises::Premises;
use cnf_base::CnfLit;
use ketch_base::OutOfMemory;

/// Resolves the last marked literal, where another one of the present level is marked.
fn resolve_last(
    premises: &Premises,
    marks: &mut [bool],
    analysis: &mut Analysis,
    place: u32,
) -> Result<(), OutOfMemory>
    requires explained { AreExplained premises.now }
    requires tracked { IsTracked premises.now.trail marks.old analysis.old.kept.items analysis.old.root_lits.items analysis.old.open_count }
    requires last { IsLastMarked premises.now.trail marks.old place }
    requires count { 1 < analysis.old.open_count }
    ensures tracked { OnOk result (IsTracked premises.now.trail marks.new analysis.new.kept.items analysis.new.root_lits.items analysis.new.open_count) }
    ensures below { OnOk result (AreBelow premises.now.trail.assignments marks.new place) }
    ensures count { OnOk result (0 < analysis.new.open_count) }
    ensures resolves { OnOk result (ResolvesIn premises.now marks.old analysis.old.hints.items marks.new analysis.new.hints.items) }
{
    let found = antecedent_of(premises, place);
    analysis.hints.push(found.hint)?;
    note_all(&premises.trail, marks, analysis, found.lits)?;
    analysis.open_count -= 1;
    marks[premises.trail.at(place).var() as usize] = false;
    Ok(())
}

/// Resolves until one marked literal of the present level is left: its place. Met are the literals that were resolved, this
/// one, and those that are kept.
pub fn resolve(
    premises: &Premises,
    marks: &mut [bool],
    analysis: &mut Analysis,
    met: &mut Vec<CnfLit>,
) -> Result<u32, OutOfMemory>
    requires explained { AreExplained premises.now }
    requires tracked { IsTracked premises.now.trail marks.old analysis.old.kept.items analysis.old.root_lits.items analysis.old.open_count }
    requires count { 0 < analysis.old.open_count }
    requires none_met { met.old.items ≡ [] }
    ensures tracked { OnOk result (IsTracked premises.now.trail marks.new analysis.new.kept.items analysis.new.root_lits.items analysis.new.open_count) }
    ensures last { IfOk result (IsLastMarked premises.now.trail marks.new) }
    ensures count { OnOk result (analysis.new.open_count ≡ 1) }
    ensures met { OnOk result (All (IsLiteral premises.now.trail.vars) met.new.items) }
    ensures resolves { OnOk result (ResolvesIn premises.now marks.old analysis.old.hints.items marks.new analysis.new.hints.items) }
{
    let mut at = last_marked(&premises.trail, marks, premises.trail.len());
    while analysis.open_count > 1 {
        met.push(premises.trail.at(at))?;
        resolve_last(premises, marks, analysis, at)?;
        at = last_marked(&premises.trail, marks, at);
    }
    met.push(premises.trail.at(at))?;
    met.extend_from_slice(&analysis.kept)?;
    Ok(at)
}
