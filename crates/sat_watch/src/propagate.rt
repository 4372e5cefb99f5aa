//! Propagation along the trail, over the watches of the literals that it makes false.

ghost use Rattle.std.specs.Prelude.{◌≡◌, ◌<◌, ◌≤◌, ◌+◌, All, MatchOption, length, nat_abs, neg_ℤ, take};
ghost use Rattle.sat_trail.specs.Trail.{lits};
ghost use Rattle.sat_watch.specs.Book.{IsBookClause, NoneFalseBelow, NoneUnitBelow, ExtendsByUnits, ScanIs};
ghost use Rattle.sat_watch.specs.Kept.{IsWatched, AreSized, Each, EachBefore, EachFrom};
ghost use Rattle.sat_watch.specs.Links.{watch_lits};
ghost use Rattle.sat_watch.specs.Scanning.{IsFalsifiedAt};
ghost use Rattle.sat_watch.specs.Watching.{IsChosen, AreKnown, AreWatchedBelow, AreWatchedTo};

use crate::arena::Arena;
use crate::begin::{Begin, watch_new};
use crate::examine::examine_from;
use crate::links::{Link, Watch, first_watch, next_watch};
use crate::scan::Scan;
use crate::visit::{Visit, visit_watch};
use sat_trail::{ClauseId, Trail};

/// Visits the watches that the trail's literal at this place makes false: the place of a clause that is false.
fn walk_list(
    clauses: &Arena,
    heads: &mut [Link],
    watches: &mut [Watch],
    at: u32,
    trail: &mut Trail,
) -> Option<usize>
    requires clauses { All (IsBookClause trail.old.vars) clauses.now }
    requires sizes { AreSized trail.old.vars clauses.now heads.old watches.old }
    requires at { at < length trail.old.assignments }
    requires watched { AreWatchedTo clauses.now heads.old watches.old trail.old at }
    ensures by_units { ExtendsByUnits clauses.now trail.old trail.new }
    ensures low { trail.new.low ≡ trail.old.low }
    ensures below { AreWatchedBelow clauses.now heads.new watches.new trail.new }
    ensures answer { MatchOption result (AreWatchedTo clauses.now heads.new watches.new trail.new (at + 1))
        (IsFalsifiedAt clauses.now (lits trail.new.assignments)) }
{
    trail.is_well_formed();
    let falsified = trail.at(at).negation();
    let mut previous = None;
    let mut cursor = first_watch(heads, falsified);
    while let Some(watch) = cursor {
        cursor = next_watch(watches, watch);
        match visit_watch(clauses, heads, watches, previous, watch, trail) {
            Visit::Kept => previous = Some(watch),
            Visit::Moved => {}
            Visit::Conflict => return Some(watch as usize / 2),
        }
    }
    None
}

/// Walks along the trail from this place on: the place of a clause that is false.
fn follow(
    clauses: &Arena,
    heads: &mut [Link],
    watches: &mut [Watch],
    start: u32,
    trail: &mut Trail,
) -> Option<usize>
    requires clauses { All (IsBookClause trail.old.vars) clauses.now }
    requires sizes { AreSized trail.old.vars clauses.now heads.old watches.old }
    requires start { start ≤ length trail.old.assignments }
    requires watched { AreWatchedTo clauses.now heads.old watches.old trail.old start }
    ensures by_units { ExtendsByUnits clauses.now trail.old trail.new }
    ensures low { trail.new.low ≡ trail.old.low }
    ensures below { AreWatchedBelow clauses.now heads.new watches.new trail.new }
    ensures answer { MatchOption result (Each (IsWatched (lits trail.new.assignments) (lits trail.new.assignments)) clauses.now (watch_lits watches.new))
        (IsFalsifiedAt clauses.now (lits trail.new.assignments)) }
{
    let mut at = start;
    while at < trail.len() {
        match walk_list(clauses, heads, watches, at, trail) {
            Some(place) => return Some(place),
            None => at += 1,
        }
    }
    None
}

/// Looks at the new clauses, and then at the trail: the place of a clause that is false.
fn find_false(
    clauses: &Arena,
    heads: &mut [Link],
    watches: &mut [Watch],
    begin: Begin,
    trail: &mut Trail,
) -> Option<usize>
    requires clauses { All (IsBookClause trail.old.vars) clauses.now }
    requires sizes { AreSized trail.old.vars clauses.now heads.old watches.old }
    requires literal { begin.literal ≤ length trail.old.assignments }
    requires below { AreWatchedBelow clauses.now heads.old watches.old trail.old }
    requires old_clauses { EachBefore begin.clause (IsWatched (take begin.literal (lits trail.old.assignments)) (take begin.literal (lits trail.old.assignments)))
        clauses.now (watch_lits watches.old) }
    requires new_clauses { EachFrom begin.clause (IsChosen trail.old.assignments) clauses.now (watch_lits watches.old) }
    ensures by_units { ExtendsByUnits clauses.now trail.old trail.new }
    ensures low { trail.new.low ≡ trail.old.low }
    ensures below { AreWatchedBelow clauses.now heads.new watches.new trail.new }
    ensures answer { MatchOption result (Each (IsWatched (lits trail.new.assignments) (lits trail.new.assignments)) clauses.now (watch_lits watches.new))
        (IsFalsifiedAt clauses.now (lits trail.new.assignments)) }
{
    trail.is_well_formed();
    match examine_from(clauses, begin.clause, trail) {
        Some(place) => Some(place),
        None => follow(clauses, heads, watches, begin.literal, trail),
    }
}

/// Propagates, where the clauses before `watched_count` are watched under the first `start` literals of the trail.
pub fn propagate_watches(
    clauses: &Arena,
    heads: &mut [Link],
    watches: &mut [Watch],
    watched_count: usize,
    start: u32,
    trail: &mut Trail,
) -> Scan
    requires clauses { All (IsBookClause trail.old.vars) clauses.now }
    requires sizes { AreSized trail.old.vars clauses.now heads.old watches.old }
    requires watched_count { watched_count ≤ length clauses.now }
    requires start { start ≤ length trail.old.assignments }
    requires known { AreKnown clauses.now heads.old watches.old trail.old watched_count start }
    requires none_false { NoneFalseBelow clauses.now trail.old }
    requires none_unit { NoneUnitBelow clauses.now trail.old }
    ensures by_units { ExtendsByUnits clauses.now trail.old trail.new }
    ensures low { trail.new.low ≡ trail.old.low }
    ensures below { AreWatchedBelow clauses.now heads.new watches.new trail.new }
    ensures watched { result ≡ Scan.Quiet → Each (IsWatched (lits trail.new.assignments) (lits trail.new.assignments)) clauses.now (watch_lits watches.new) }
    ensures answer { ScanIs clauses.now (lits trail.new.assignments) result }
{
    let begin = watch_new(clauses, heads, watches, watched_count, start, trail);
    match find_false(clauses, heads, watches, begin, trail) {
        None => Scan::Quiet,
        Some(place) => Scan::Conflict(ClauseId::Book(place as u64)),
    }
}
