//! The choice of a clause's two watches: the literals that are falsified last.

ghost use Rattle.std.specs.Prelude.{◌≡◌, ◌≢◌, ℤ, List, [], ◌∷◌, ◌++◌, ◌*◌, ◌≤◌, All, MatchBool, IsFalse, IsTrue, length, nat_abs};
ghost use Rattle.cnf_base.specs.Status.{has};
ghost use Rattle.sat_watch.specs.Book.{IsBookClause};
ghost use Rattle.sat_watch.specs.Kept.{IsPair, Each, EachFrom};
ghost use Rattle.sat_watch.specs.Links.{watch_lits};
ghost use Rattle.sat_watch.specs.Watching.{IsFalseFrom, Lasts, IsChosen};

use crate::arena::Arena;
use crate::links::{Link, Watch};
use cnf_base::CnfLit;
use sat_trail::{Trail, Value};

/// Two literals of a clause.
#[derive(Clone, Copy)]
pub struct Pair {
    pub first: CnfLit,
    pub second: CnfLit,
}

/// The level from which on a literal is false: none where it isn't false.
fn false_level(trail: &Trail, lit: CnfLit) -> Option<u32>
    requires { nat_abs lit ≤ trail.now.vars }
    ensures { IsFalseFrom trail.now.assignments lit result }
{
    trail.is_well_formed();
    match trail.value(lit) {
        Value::False => trail.level_of(lit.var()),
        _ => None,
    }
}

/// Whether the first literal is falsified no earlier than the second.
fn lasts(trail: &Trail, first: CnfLit, second: CnfLit) -> bool
    requires first { nat_abs first ≤ trail.now.vars }
    requires second { nat_abs second ≤ trail.now.vars }
    ensures { MatchBool result (Lasts trail.now.assignments first second) (Lasts trail.now.assignments second first) }
{
    match false_level(trail, first) {
        None => true,
        Some(level) => match false_level(trail, second) {
            None => false,
            Some(other) => other <= level,
        },
    }
}

fn in_order(trail: &Trail, a: CnfLit, b: CnfLit) -> Pair
    requires a { nat_abs a ≤ trail.now.vars }
    requires b { nat_abs b ≤ trail.now.vars }
    requires differ { a ≢ b }
    ensures { IsChosen trail.now.assignments (a ∷ b ∷ []) result.first result.second }
{
    if lasts(trail, a, b) {
        Pair {
            first: a,
            second: b,
        }
    } else {
        Pair {
            first: b,
            second: a,
        }
    }
}

/// The choice where the clause has one literal more.
fn with_one_more(trail: &Trail, pair: Pair, lit: CnfLit) -> Pair
    requires first { nat_abs pair.first ≤ trail.now.vars }
    requires second { nat_abs pair.second ≤ trail.now.vars }
    requires lit { nat_abs lit ≤ trail.now.vars }
    ensures { (clause : List ℤ) → IsFalse (has clause lit) → IsChosen trail.now.assignments clause pair.first pair.second
        → IsChosen trail.now.assignments (clause ++ lit ∷ []) result.first result.second }
{
    if lasts(trail, pair.second, lit) {
        pair
    } else if lasts(trail, pair.first, lit) {
        Pair {
            first: pair.first,
            second: lit,
        }
    } else {
        Pair {
            first: lit,
            second: pair.first,
        }
    }
}

/// The two literals of the clause that are falsified last.
pub fn choose(trail: &Trail, clause: &[CnfLit]) -> Pair
    requires { IsBookClause trail.now.vars clause.now }
    ensures { IsChosen trail.now.assignments clause.now result.first result.second }
{
    let mut pair = in_order(trail, clause[0], clause[1]);
    for place in 2..clause.len() {
        pair = with_one_more(trail, pair, clause[place]);
    }
    pair
}

/// Chooses the watches of all clauses. They aren't linked yet.
pub fn choose_all(clauses: &Arena, watches: &mut [Watch], trail: &Trail)
    requires clauses { All (IsBookClause trail.now.vars) clauses.now }
    requires two_each { length watches.old ≡ 2 * length clauses.now }
    ensures { Each (IsChosen trail.now.assignments) clauses.now (watch_lits watches.new) }
{
    for place in 0..clauses.len() {
        let pair = choose(trail, clauses.get(place));
        watches[2 * place] = unlinked(pair.first);
        watches[2 * place + 1] = unlinked(pair.second);
    }
}

/// Whether these two literals are the ones that are falsified last, and the second one first of them.
fn are_last(trail: &Trail, clause: &[CnfLit], first: CnfLit, second: CnfLit) -> bool
    requires clause { IsBookClause trail.now.vars clause.now }
    requires pair { IsPair clause.now first second }
    ensures { IsTrue result → IsChosen trail.now.assignments clause.now first second }
{
    if !lasts(trail, first, second) {
        return false;
    }
    for lit in clause {
        if *lit != first && !lasts(trail, second, *lit) {
            return false;
        }
    }
    true
}

/// Whether the watches of the clauses from this place on are the ones to choose where the trail has these literals.
pub fn are_last_from(clauses: &Arena, watches: &[Watch], from: usize, trail: &Trail) -> bool
    requires clauses { All (IsBookClause trail.now.vars) clauses.now }
    requires two_each { length watches.now ≡ 2 * length clauses.now }
    requires pairs { Each IsPair clauses.now (watch_lits watches.now) }
    ensures { IsTrue result → EachFrom from (IsChosen trail.now.assignments) clauses.now (watch_lits watches.now) }
{
    for place in from..clauses.len() {
        let first = watches[2 * place].lit;
        let second = watches[2 * place + 1].lit;
        if !are_last(trail, clauses.get(place), first, second) {
            return false;
        }
    }
    true
}

/// A watch in no list.
pub fn unlinked(lit: CnfLit) -> Watch
    ensures { result.lit ≡ lit }
{
    Watch {
        lit,
        next: Link::none(),
        search: 0,
    }
}
