//! Decisions: assumptions first, in their order, and then variables.

ghost use Rattle.std.specs.Prelude.{◌≡◌, ◌<◌, None, IsTrue, IsFalse, MatchOption};
ghost use Rattle.cnf_base.specs.Meaning.{IsWithin};
ghost use Rattle.cnf_base.specs.Status.{has};
ghost use Rattle.sat_trail.specs.Trail.{lits, value_in};
ghost use Rattle.sat_watch.specs.Book.{NoneFalse};
ghost use Rattle.sat_watch.specs.Ready.{IsSettled};
ghost use Rattle.sat_solver.specs.Steps.{AllAssigned};
ghost use Rattle.sat_incremental.specs.Assuming.{AreIn};
ghost use Rattle.sat_incremental.specs.Searching.{IsQuery, Continues, StepIs, left};

use crate::assumptions::{Pending, first_pending};
use crate::search::Search;
use crate::step::End;
use cnf_base::CnfLit;
use sat_solver::next_variable;
use sat_trail::Value;

/// Decides an assumption that is open.
fn assume(search: &mut Search, assumptions: &[CnfLit], lit: CnfLit, lemmas: u64)
    requires query { IsQuery assumptions.now lemmas search.old }
    requires settled { IsSettled search.old.premises.book search.old.premises.trail }
    requires assumed { IsTrue (has assumptions.now lit) }
    requires in_range { IsWithin search.old.vars assumptions.now }
    requires open_now { value_in (lits search.old.premises.trail.assignments) lit ≡ Value.Unset }
    ensures query { IsQuery assumptions.now lemmas search.new }
    ensures continues { Continues search.old search.new }
    ensures less { left lemmas search.new < left lemmas search.old }
{
    let _ = assumptions;
    let _ = lemmas;
    search.premises.trail.is_well_formed();
    prove!(lit.var() != 0);
    search.premises.trail.decide(lit);
}

/// Decides the next variable, where one is unassigned.
fn decide(search: &mut Search, assumptions: &[CnfLit], lemmas: u64) -> bool
    requires query { IsQuery assumptions.now lemmas search.old }
    requires settled { IsSettled search.old.premises.book search.old.premises.trail }
    requires assumed { AreIn assumptions.now (lits search.old.premises.trail.assignments) }
    ensures query { IsQuery assumptions.now lemmas search.new }
    ensures continues { Continues search.old search.new }
    ensures less { IsTrue result → left lemmas search.new < left lemmas search.old }
    ensures all { IsFalse result → AllAssigned search.new.premises.trail }
    ensures trail { IsFalse result → search.new.premises.trail ≡ search.old.premises.trail }
    ensures book { search.new.premises.book ≡ search.old.premises.book }
{
    let _ = assumptions;
    let _ = lemmas;
    search.queue.is_well_formed();
    search.premises.trail.is_well_formed();
    search.from = next_variable(&search.queue, search.from, &search.premises.trail);
    let Some(var) = search.from else {
        return false;
    };
    let lit = search.phases.literal(var);
    search.premises.trail.decide(lit);
    true
}

/// Decides what comes next, where no clause is false or unit.
pub fn choose(search: &mut Search, assumptions: &[CnfLit], lemmas: u64) -> Option<End>
    requires query { IsQuery assumptions.now lemmas search.old }
    requires in_range { IsWithin search.old.vars assumptions.now }
    requires settled { IsSettled search.old.premises.book search.old.premises.trail }
    requires none_false { NoneFalse search.old.premises.book.clauses (lits search.old.premises.trail.assignments) }
    ensures query { IsQuery assumptions.now lemmas search.new }
    ensures continues { Continues search.old search.new }
    ensures step { StepIs assumptions.now lemmas search.old search.new result }
{
    match first_pending(assumptions, &search.premises.trail) {
        Pending::Failed(lit) => Some(End::Failed(lit)),
        Pending::Open(lit) => {
            assume(search, assumptions, lit, lemmas);
            None
        }
        Pending::AllTrue => {
            if decide(search, assumptions, lemmas) {
                None
            } else {
                Some(End::Satisfied)
            }
        }
    }
}
