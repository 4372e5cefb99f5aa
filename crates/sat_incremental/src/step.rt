//! Steps of a search: propagation, and then a decision or a lemma.

ghost use Rattle.std.specs.Prelude.{◌≡◌, ◌≤◌, IfOk, OnOk};
ghost use Rattle.cnf_base.specs.Meaning.{IsWithin};
ghost use Rattle.sat_trail.specs.Trail.{lits};
ghost use Rattle.sat_watch.specs.Book.{ScanIs};
ghost use Rattle.sat_watch.specs.Ready.{IsSettled};
ghost use Rattle.sat_incremental.specs.Searching.{IsQuery, Continues, StepIs, EndIs, left};

use crate::decision::choose;
use crate::learn::learn;
use crate::search::Search;
use cnf_base::CnfLit;
use ketch_base::OutOfMemory;
use sat_trail::ClauseId;
use sat_watch::Scan;
use std::alloc::Global;

/// How a search ends.
#[derive(Clone, Copy)]
pub enum End {
    /// All variables are assigned, no clause is false, and each assumption is true.
    Satisfied,
    /// This clause is false at level 0.
    Refuted(ClauseId),
    /// This assumption is false.
    Failed(CnfLit),
    /// The budget is spent.
    Spent,
}

fn propagate(search: &mut Search, assumptions: &[CnfLit], lemmas: u64) -> Scan
    requires query { IsQuery assumptions.now lemmas search.old }
    ensures query { IsQuery assumptions.now lemmas search.new }
    ensures continues { Continues search.old search.new }
    ensures no_more { left lemmas search.new ≤ left lemmas search.old }
    ensures answer { ScanIs search.new.premises.book.clauses (lits search.new.premises.trail.assignments) result }
    ensures settled { result ≡ Scan.Quiet → IsSettled search.new.premises.book search.new.premises.trail }
{
    let _ = assumptions;
    let _ = lemmas;
    search.premises.trail.is_well_formed();
    let scan = search.premises.book.propagate(&mut search.premises.trail);
    search.premises.trail.is_well_formed();
    scan
}

/// Propagates, and then decides or learns.
fn take_step(
    alloc: Global,
    search: &mut Search,
    assumptions: &[CnfLit],
    lemmas: u64,
) -> Result<Option<End>, OutOfMemory>
    requires query { IsQuery assumptions.now lemmas search.old }
    requires in_range { IsWithin search.old.vars assumptions.now }
    ensures query { OnOk result (IsQuery assumptions.now lemmas search.new) }
    ensures continues { OnOk result (Continues search.old search.new) }
    ensures step { IfOk result (StepIs assumptions.now lemmas search.old search.new) }
{
    match propagate(search, assumptions, lemmas) {
        Scan::Quiet => Ok(choose(search, assumptions, lemmas)),
        Scan::Conflict(id) => {
            if search.premises.trail.level() == 0 {
                return Ok(Some(End::Refuted(id)));
            }
            if search.learned == lemmas {
                return Ok(Some(End::Spent));
            }
            learn(alloc, search, assumptions, id, lemmas)?;
            Ok(None)
        }
    }
}

/// Takes steps until one ends the search.
pub fn take_steps(
    alloc: Global,
    search: &mut Search,
    assumptions: &[CnfLit],
    lemmas: u64,
) -> Result<End, OutOfMemory>
    requires query { IsQuery assumptions.now lemmas search.old }
    requires in_range { IsWithin search.old.vars assumptions.now }
    ensures query { OnOk result (IsQuery assumptions.now lemmas search.new) }
    ensures continues { OnOk result (Continues search.old search.new) }
    ensures end { IfOk result (EndIs assumptions.now lemmas search.new) }
{
    'steps: loop {
        if let Some(end) = take_step(alloc, search, assumptions, lemmas)? {
            return Ok(end);
        }
    }
}
