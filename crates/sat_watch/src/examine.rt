//! Clauses are looked at one by one: a unit one forces its literal, and a false one ends the walk.

ghost use Rattle.std.specs.Prelude.{◌≡◌, ℕ, ◌<◌, ◌≤◌, All, MatchBool, MatchOption, length, nat_abs};
ghost use Rattle.sat_trail.specs.Trail.{lits};
ghost use Rattle.sat_watch.specs.Book.{IsBookClause, ExtendsByUnits};
ghost use Rattle.sat_watch.specs.Scanning.{HasStatus, RestsAt, IsFalsifiedAt};

use crate::arena::Arena;
use cnf_base::{ClauseStatus, CnfLit};
use sat_trail::{ClauseId, Trail, Value};

/// A clause where the trail's literals are true. Two open literals are enough to know that nothing is to be done, so the
/// literals after the second aren't looked at, and one of them may be true.
fn status_of(trail: &Trail, clause: &[CnfLit]) -> ClauseStatus
    requires { All (λ l. nat_abs l ≤ trail.now.vars) clause.now }
    ensures { HasStatus (lits trail.now.assignments) clause.now result }
{
    let mut so_far = ClauseStatus::Falsified;
    for lit in clause {
        if let ClauseStatus::Unresolved = so_far {
            return ClauseStatus::Unresolved;
        }
        match trail.value(*lit) {
            Value::True => return ClauseStatus::Satisfied,
            Value::False => {}
            Value::Unset => so_far = so_far.with_open_literal(*lit),
        }
    }
    so_far
}

/// Whether the clause at this place is false. If it's unit, its literal goes on the trail.
fn examine(clauses: &Arena, place: usize, trail: &mut Trail) -> bool
    requires in_range { place < length clauses.now }
    requires clauses { All (IsBookClause trail.old.vars) clauses.now }
    ensures by_units { ExtendsByUnits clauses.now trail.old trail.new }
    ensures low { trail.new.low ≡ trail.old.low }
    ensures answer { MatchBool result (IsFalsifiedAt clauses.now (lits trail.new.assignments) place)
        (RestsAt clauses.now (lits trail.new.assignments) (lits trail.old.assignments) place) }
{
    match status_of(trail, clauses.get(place)) {
        ClauseStatus::Falsified => true,
        ClauseStatus::Unit(lit) => {
            trail.assume(lit, ClauseId::Book(place as u64));
            false
        }
        ClauseStatus::Satisfied => false,
        ClauseStatus::Unresolved => false,
    }
}

/// The first clause from this place on that is false.
pub fn examine_from(clauses: &Arena, from: usize, trail: &mut Trail) -> Option<usize>
    requires { All (IsBookClause trail.old.vars) clauses.now }
    ensures by_units { ExtendsByUnits clauses.now trail.old trail.new }
    ensures low { trail.new.low ≡ trail.old.low }
    ensures answer { MatchOption result
        ((place : ℕ) → from ≤ place → RestsAt clauses.now (lits trail.new.assignments) (lits trail.old.assignments) place)
        (IsFalsifiedAt clauses.now (lits trail.new.assignments)) }
{
    for place in from..clauses.len() {
        if examine(clauses, place, trail) {
            return Some(place);
        }
    }
    None
}
