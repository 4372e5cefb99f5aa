//! What was seen of a trail: its literals with their levels, and from where on they are to be looked at again.

ghost use Rattle.std.specs.Prelude.{◌≡◌, ℕ, ◌<◌, ◌≤◌, ◌++◌, IsTrue, length, take, drop};
ghost use Rattle.sat_trail.specs.Trail.{upto};
ghost use Rattle.sat_watch.specs.Book.{marks};
ghost use Rattle.sat_watch.specs.Kept.{IsRising, BeginsLevel, IsStart};

use crate::mark::Mark;
use sat_trail::Trail;

/// The first of these marks.
pub fn first_marks(seen: &[Mark], count: u32) -> &[Mark]
    requires { count ≤ length seen.now }
    ensures { result.now ≡ take count seen.now }
{
    &seen[..count as usize]
}

/// The first place that has the level of this one.
fn first_of_level(seen: &[Mark], place: u32) -> u32
    requires in_range { place < length seen.now }
    requires rising { IsRising seen.now }
    ensures at_most { result ≤ place }
    ensures begins { BeginsLevel seen.now result }
{
    let level = seen[place as usize].level;
    let mut first = place;
    while first > 0 {
        if seen[first as usize - 1].level != level {
            break;
        }
        first -= 1;
    }
    first
}

/// How many of the trail's first literals needn't be looked at again, where it kept `low` of those that were seen.
///
/// A trail may go back and come again to as many literals: so a level that lost one is looked at from its first place.
pub fn start_of(seen: &[Mark], low: u32, quiet: bool) -> u32
    requires { IsRising seen.now }
    ensures at_most { result ≤ low }
    ensures start { IsStart seen.now quiet result }
{
    if (low as usize) < seen.len() {
        first_of_level(seen, low)
    } else if quiet {
        low
    } else {
        0
    }
}

/// Whether no literal from this place on is of a level below the present one.
pub fn is_at_present_level(trail: &Trail, start: u32) -> bool
    requires { start ≤ length trail.now.assignments }
    ensures { IsTrue result → (k : ℕ) → k < trail.now.level → length (upto k trail.now.assignments) ≤ start }
{
    if start < trail.len() {
        trail.level_at(start) == trail.level()
    } else {
        true
    }
}

/// Writes the trail's marks from this place on.
pub fn note(seen: &mut [Mark], trail: &Trail, from: u32)
    requires from { from ≤ length trail.now.assignments }
    requires room { trail.now.vars ≤ length seen.old }
    ensures { take (length trail.now.assignments) seen.new ≡ take from seen.old ++ drop from (marks trail.now.assignments) }
{
    for place in from..trail.len() {
        seen[place as usize] = Mark {
            lit: trail.at(place),
            level: trail.level_at(place),
        };
    }
}
