//! One step of a search: propagation, and then a decision or a learned clause.

ghost use Rattle.std.specs.Prelude.{◌≡◌, ℕ, ◌<◌, ◌≤◌, ℤ, List, IsTrue, IsFalse, length, IfOk, OnOk};
ghost use Rattle.cnf_base.specs.Status.{IsFalsifiedIn};
ghost use Rattle.cnf_base.specs.Meaning.{CnfFormula};
ghost use Rattle.sat_trail.specs.Trail.{lits};
ghost use Rattle.sat_watch.specs.Book.{IsClauseOf, ScanIs};
ghost use Rattle.sat_watch.specs.Ready.{IsReady, IsSettled};
ghost use Rattle.sat_solver.specs.Decision.{IsPassed};
ghost use Rattle.sat_solver.specs.Steps.{IsSearchState, left, AllAssigned, StepIs};

use crate::analysis::analyze;
use crate::backjump::add_lemma;
use crate::decision::decide;
use crate::root_lemmas::add_root_lemmas;
use crate::search::Search;
use cnf_base::Formula;
use ketch_base::OutOfMemory;
use sat_trail::ClauseId;
use sat_watch::Scan;
use std::alloc::Global;

/// How a search ends.
#[derive(Clone, Copy)]
pub enum Outcome {
    /// All variables are assigned, and no clause is false.
    Satisfied,
    /// This clause is false at level 0.
    Refuted(ClauseId),
    /// The budget is spent, and a clause is false above level 0.
    Spent,
}

fn propagate(search: &mut Search) -> Scan
    requires { IsReady search.old.premises.book search.old.premises.trail }
    ensures state { (formula : CnfFormula) (lemmas : ℕ) → IsSearchState formula lemmas search.old → IsSearchState formula lemmas search.new }
    ensures no_more { (lemmas : ℕ) → left lemmas search.new ≤ left lemmas search.old }
    ensures answer { ScanIs search.new.premises.book.clauses (lits search.new.premises.trail.assignments) result }
    ensures settled { result ≡ Scan.Quiet → IsSettled search.new.premises.book search.new.premises.trail }
{
    search.premises.trail.is_well_formed();
    let scan = search.premises.book.propagate(&mut search.premises.trail);
    search.premises.trail.is_well_formed();
    scan
}

/// Learns from a clause that is false above level 0, goes back to where the lemma is unit, and considers lemmas for what it rests on at level 0.
fn learn(
    alloc: Global,
    formula: &Formula,
    search: &mut Search,
    conflict: ClauseId,
    lemmas: u64,
) -> Result<(), OutOfMemory>
    requires state { IsSearchState formula.now lemmas search.old }
    requires above { 0 < search.old.premises.trail.level }
    requires conflict { (clause : List ℤ) × IsClauseOf search.old.premises.book.clauses conflict clause × IsFalsifiedIn (lits search.old.premises.trail.assignments) clause }
    requires room { length search.old.steps < lemmas }
    ensures state { OnOk result (IsSearchState formula.now lemmas search.new) }
    ensures less { OnOk result (left lemmas search.new < left lemmas search.old) }
{
    let learned = analyze(search, conflict)?;
    let roots = Vec::from_slice(alloc, learned.roots())?;
    add_lemma(alloc, formula, search, learned)?;
    add_root_lemmas(alloc, formula, search, &roots, lemmas)?;
    Ok(())
}

/// Propagates, and then decides or learns.
pub fn take_step(
    alloc: Global,
    formula: &Formula,
    search: &mut Search,
    lemmas: u64,
) -> Result<Option<Outcome>, OutOfMemory>
    requires { IsSearchState formula.now lemmas search.old }
    ensures { IfOk result (StepIs formula.now lemmas search.old search.new) }
{
    match propagate(search) {
        Scan::Quiet => Ok(if decide(search) {
            None
        } else {
            Some(Outcome::Satisfied)
        }),
        Scan::Conflict(id) => {
            if search.premises.trail.level() == 0 {
                return Ok(Some(Outcome::Refuted(id)));
            }
            if search.steps.len() as u64 == lemmas {
                return Ok(Some(Outcome::Spent));
            }
            learn(alloc, formula, search, id, lemmas)?;
            Ok(None)
        }
    }
}
