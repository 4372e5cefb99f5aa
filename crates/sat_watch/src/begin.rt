//! Where propagation begins, and the watches there.

ghost use Rattle.std.specs.Prelude.{◌≡◌, ℕ, ℤ, List, ◌*◌, ◌+◌, ◌<◌, ◌≤◌, All, IsTrue, length, take};
ghost use Rattle.sat_trail.specs.Trail.{lits, upto};
ghost use Rattle.sat_watch.specs.declared.links.Watch.{Watch};
ghost use Rattle.sat_watch.specs.Book.{IsBookClause, NoneFalseBelow, NoneUnitBelow};
ghost use Rattle.sat_watch.specs.Kept.{IsPair, IsWatched, AreSized, Each, EachBefore, EachFrom};
ghost use Rattle.sat_watch.specs.Links.{watch_lits, AreLinked};
ghost use Rattle.sat_watch.specs.Watching.{IsChosen, AreKnown, AreWatchedBelow};

use crate::arena::Arena;
use crate::choose::{are_last_from, choose_all};
use crate::links::{Link, Watch, link_from, unlink_all};
use crate::seen::is_at_present_level;
use sat_trail::Trail;

/// The clauses from one place on are new, and the trail is to be walked from the other on.
#[derive(Clone, Copy)]
pub struct Begin {
    pub clause: usize,
    pub literal: u32,
}

/// Whether the watches serve as they are: no literal of a lower level waits to be looked at, up to which a watch may be
/// false, and the new clauses watch the literals that are falsified last.
fn serve(
    clauses: &Arena,
    watches: &[Watch],
    watched_count: usize,
    start: u32,
    trail: &Trail,
) -> bool
    requires clauses { All (IsBookClause trail.now.vars) clauses.now }
    requires two_each { length watches.now ≡ 2 * length clauses.now }
    requires pairs { Each IsPair clauses.now (watch_lits watches.now) }
    requires start { start ≤ length trail.now.assignments }
    ensures at_level { IsTrue result → (k : ℕ) → k < trail.now.level → length (upto k trail.now.assignments) ≤ start }
    ensures chosen { IsTrue result → EachFrom watched_count (IsChosen trail.now.assignments) clauses.now (watch_lits watches.now) }
{
    if is_at_present_level(trail, start) {
        are_last_from(clauses, watches, watched_count, trail)
    } else {
        false
    }
}

/// Chooses the watches of all clauses anew, and links them.
fn watch_anew(clauses: &Arena, heads: &mut [Link], watches: &mut [Watch], trail: &Trail)
    requires clauses { All (IsBookClause trail.now.vars) clauses.now }
    requires sizes { AreSized trail.now.vars clauses.now heads.old watches.old }
    ensures linked { AreLinked heads.new watches.new }
    ensures chosen { Each (IsChosen trail.now.assignments) clauses.now (watch_lits watches.new) }
{
    unlink_all(heads);
    choose_all(clauses, watches, trail);
    link_from(heads, watches, 0);
}

/// Where the watches don't serve as they are, all clauses count as new.
pub fn watch_new(
    clauses: &Arena,
    heads: &mut [Link],
    watches: &mut [Watch],
    watched_count: usize,
    start: u32,
    trail: &Trail,
) -> Begin
    requires clauses { All (IsBookClause trail.now.vars) clauses.now }
    requires sizes { AreSized trail.now.vars clauses.now heads.old watches.old }
    requires watched_count { watched_count ≤ length clauses.now }
    requires start { start ≤ length trail.now.assignments }
    requires known { AreKnown clauses.now heads.old watches.old trail.now watched_count start }
    requires none_false { NoneFalseBelow clauses.now trail.now }
    requires none_unit { NoneUnitBelow clauses.now trail.now }
    ensures literal { result.literal ≤ length trail.now.assignments }
    ensures below { AreWatchedBelow clauses.now heads.new watches.new trail.now }
    ensures old_clauses { EachBefore result.clause (IsWatched (take result.literal (lits trail.now.assignments)) (take result.literal (lits trail.now.assignments)))
        clauses.now (watch_lits watches.new) }
    ensures new_clauses { EachFrom result.clause (IsChosen trail.now.assignments) clauses.now (watch_lits watches.new) }
{
    trail.is_well_formed();
    if serve(clauses, watches, watched_count, start, trail) {
        Begin {
            clause: watched_count,
            literal: start,
        }
    } else {
        watch_anew(clauses, heads, watches, trail);
        Begin {
            clause: 0,
            literal: trail.len(),
        }
    }
}
