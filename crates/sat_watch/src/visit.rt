//! One watch of a literal that became false.

ghost use Rattle.std.specs.Prelude.{◌≡◌, ◌≢◌, ℤ, ◌+◌, ◌^◌, ◌<◌, ◌≤◌, All, IsTrue, MatchOption, length, nat_abs, neg_ℤ, pos, slice_index_or};
ghost use Rattle.cnf_base.specs.Status.{has, IsFalseIn};
ghost use Rattle.sat_trail.specs.Trail.{lits};
ghost use Rattle.sat_watch.specs.Book.{IsBookClause, ExtendsByUnits};
ghost use Rattle.sat_watch.specs.Kept.{IsPair, Each, AreSized};
ghost use Rattle.sat_watch.specs.Links.{watch_lits, AreLinked, StandsBehind};
ghost use Rattle.sat_watch.specs.Watching.{AreFalseBut, IsFreeAt, sibling, VisitIs};

use crate::arena::Arena;
use crate::links::{Link, Watch, move_watch};
use cnf_base::CnfLit;
use sat_trail::{ClauseId, Trail, Value};

#[derive(Clone, Copy)]
pub enum Visit {
    /// The watch stays: its clause has a true literal.
    Kept,
    /// It watches another literal now.
    Moved,
    /// Its clause is false.
    Conflict,
}

/// The other watch of the same clause.
#[inline]
fn sibling(watch: u32) -> u32
    requires { watch + 1 < 2 ^ 32 }
    ensures { result ≡ sibling watch }
{
    if watch % 2 == 0 { watch + 1 } else { watch - 1 }
}

/// The first place in a part of the clause whose literal isn't false, and isn't this one.
fn find_between(
    trail: &Trail,
    clause: &[CnfLit],
    from: usize,
    to: usize,
    other: CnfLit,
) -> Option<usize>
    requires variables { All (λ l. nat_abs l ≤ trail.now.vars) clause.now }
    requires to { to ≤ length clause.now }
    ensures { MatchOption result (AreFalseBut (lits trail.now.assignments) clause.now other from to)
        (IsFreeAt (lits trail.now.assignments) clause.now other) }
{
    for place in from..to {
        let lit = clause[place];
        if lit != other {
            match trail.value(lit) {
                Value::False => {}
                _ => return Some(place),
            }
        }
    }
    None
}

/// A place whose literal isn't false, and isn't this one. The search begins at `start`, where the last one ended, and goes
/// round: the literals before it were false then.
fn find_free(trail: &Trail, clause: &[CnfLit], start: usize, other: CnfLit) -> Option<usize>
    requires { All (λ l. nat_abs l ≤ trail.now.vars) clause.now }
    ensures { MatchOption result ((l : ℤ) → IsTrue (has clause.now l) → l ≢ other → IsFalseIn (lits trail.now.assignments) l)
        (IsFreeAt (lits trail.now.assignments) clause.now other) }
{
    let start = start.min(clause.len());
    match find_between(trail, clause, start, clause.len(), other) {
        Some(place) => Some(place),
        None => find_between(trail, clause, 0, start, other),
    }
}

/// Looks at a watch that became false, in its list behind `previous`. The clause's other watch is looked at first, since it
/// stands beside this one, where the clause's literals are elsewhere in memory.
pub fn visit_watch(
    clauses: &Arena,
    heads: &mut [Link],
    watches: &mut [Watch],
    previous: Option<u32>,
    watch: u32,
    trail: &mut Trail,
) -> Visit
    requires clauses { All (IsBookClause trail.old.vars) clauses.now }
    requires sizes { AreSized trail.old.vars clauses.now heads.old watches.old }
    requires linked { AreLinked heads.old watches.old }
    requires pairs { Each IsPair clauses.now (watch_lits watches.old) }
    requires stands { StandsBehind heads.old watches.old previous watch }
    requires falsified { IsTrue (has (lits trail.old.assignments) (neg_ℤ (slice_index_or (watch_lits watches.old) watch (pos 0)))) }
    ensures by_units { ExtendsByUnits clauses.now trail.old trail.new }
    ensures low { trail.new.low ≡ trail.old.low }
    ensures answer { VisitIs clauses.now (lits trail.new.assignments) watch heads.old watches.old heads.new watches.new result }
{
    trail.is_well_formed();
    let other = watches[sibling(watch) as usize].lit;
    let value = trail.value(other);
    if value == Value::True {
        return Visit::Kept;
    }
    let place = watch as usize / 2;
    let clause = clauses.get(place);
    let start = watches[watch as usize].search as usize;
    if let Some(at) = find_free(trail, clause, start, other) {
        move_watch(heads, watches, previous, watch, clause[at], at as u32);
        return Visit::Moved;
    }
    if value == Value::False {
        return Visit::Conflict;
    }
    trail.assume(other, ClauseId::Book(place as u64));
    Visit::Kept
}
