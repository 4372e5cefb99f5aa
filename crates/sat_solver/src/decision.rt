//! Decisions.

ghost use Rattle.std.specs.Prelude.{◌≡◌, ℕ, ◌<◌, ◌≤◌, true, IsTrue, IsFalse, length, IfSome};
ghost use Rattle.cnf_base.specs.Meaning.{CnfFormula};
ghost use Rattle.sat_queue.specs.Order.{is_unassigned};
ghost use Rattle.sat_watch.specs.Ready.{IsSettled};
ghost use Rattle.sat_solver.specs.Decision.{IsPassed};
ghost use Rattle.sat_solver.specs.Steps.{IsSearchState, left, AllAssigned};

use crate::search::Search;
use sat_queue::VarQueue;
use sat_trail::Trail;

/// The first variable of the queue that is unassigned, where all before `from` are assigned.
pub fn next_variable(queue: &VarQueue, from: Option<u32>, trail: &Trail) -> Option<u32>
    requires vars { trail.now.vars ≡ length queue.now }
    requires passed { IsPassed queue.now trail.now.assignments from }
    ensures passed { IsPassed queue.now trail.now.assignments result }
    ensures unset { IfSome result (λ v. is_unassigned trail.now.assignments v ≡ true) }
    ensures in_range { IfSome result (λ v. (0 < v) × (v ≤ trail.now.vars)) }
{
    queue.is_well_formed();
    queue.next_unset_from(from?, trail)
}

/// Decides the next variable, where one is unassigned.
pub fn decide(search: &mut Search) -> bool
    requires settled { IsSettled search.old.premises.book search.old.premises.trail }
    requires vars { search.old.premises.trail.vars ≡ length search.old.queue }
    requires phases { search.old.premises.trail.vars ≡ search.old.phases }
    requires passed { IsPassed search.old.queue search.old.premises.trail.assignments search.old.from }
    ensures state { (formula : CnfFormula) (lemmas : ℕ) → IsSearchState formula lemmas search.old → IsSearchState formula lemmas search.new }
    ensures less { IsTrue result → (lemmas : ℕ) → left lemmas search.new < left lemmas search.old }
    ensures all { IsFalse result → AllAssigned search.new.premises.trail }
    ensures trail { IsFalse result → search.new.premises.trail ≡ search.old.premises.trail }
    ensures book { search.new.premises.book ≡ search.old.premises.book }
{
    search.queue.is_well_formed();
    search.premises.trail.is_well_formed();
    search.from = next_variable(&search.queue, search.from, &search.premises.trail);
    let Some(var) = search.from else {
        return false;
    };
    let lit = search.phases.literal(var);
    search.premises.trail.decide(lit);
    true
}
