//! Posts in the order of their numbers.

ghost use Rattle.std.specs.Prelude.{◌≡◌, ℕ, ◌+◌, ◌<◌, ◌≤◌, [], ◌++◌, None, Some, List, length, map, replicate, All};
ghost use Rattle.std.specs.Vec.{vec_capacity};
ghost use Rattle.board_core.specs.declared.entry.Entry.{Entry};
ghost use Rattle.inv_cert.specs.Evidences.{Evidence};
ghost use Rattle.goal_board.specs.declared.pass.Posted.{Posted};
ghost use Rattle.goal_board.specs.Ends.{AreNumbered, IsInOrder, entries_of, placed};

use crate::pass::Posted;
use board_core::Entry;
use inv_cert::Evidence;

/// Puts posts behind others.
pub fn append(all: &mut Vec<Posted>, posts: Vec<Posted>)
    requires { length all.old.items + length posts.items ≤ vec_capacity all.old }
    ensures items { all.new.items ≡ all.old.items ++ posts.items }
    ensures capacity { vec_capacity all.new ≡ vec_capacity all.old }
{
    for post in posts {
        all.push_reserved(post);
    }
}

/// The entries and the evidence of posts that have the numbers from 0 on, in the order of these.
pub fn in_order(
    posts: Vec<Posted>,
    places: Vec<Option<Posted>>,
    history: Vec<Entry>,
    evidence: Vec<Evidence>,
) -> (Vec<Entry>, Vec<Evidence>)
    requires numbers { AreNumbered (entries_of posts.items) (length posts.items) }
    requires none { (places.items ≡ []) × (history.items ≡ []) × (evidence.items ≡ []) }
    requires room { (length posts.items ≤ vec_capacity places) × (length posts.items ≤ vec_capacity history) × (length posts.items ≤ vec_capacity evidence) }
    ensures { (sorted : List Posted) × IsInOrder posts.items sorted × (result.0.items ≡ map (λ (p : Posted). p.entry) sorted) × (result.1.items ≡ map (λ (p : Posted). p.evidence) sorted) }
{
    let mut places = places;
    add_empty(&mut places, posts.len());
    place_all(&mut places, posts);
    taken_apart(places, history, evidence)
}

/// Adds so many empty places.
fn add_empty(places: &mut Vec<Option<Posted>>, count: usize)
    requires { (places.old.items ≡ []) × (count ≤ vec_capacity places.old) }
    ensures { places.new.items ≡ replicate count None }
{
    for _ in 0..count {
        places.push_reserved(None);
    }
}

/// Puts each post at the place of its number.
fn place_all(places: &mut Vec<Option<Posted>>, posts: Vec<Posted>)
    requires { All (λ (p : Posted). p.entry.number < length places.old.items) posts.items }
    ensures { places.new.items ≡ placed places.old.items posts.items }
{
    for post in posts {
        let place = post.entry.number as usize;
        places[place] = Some(post);
    }
}

/// The entries and the evidence of the posts at these places, none of which is empty.
fn taken_apart(
    places: Vec<Option<Posted>>,
    history: Vec<Entry>,
    evidence: Vec<Evidence>,
) -> (Vec<Entry>, Vec<Evidence>)
    requires full { (sorted : List Posted) × (places.items ≡ map (λ (p : Posted). Some p) sorted) }
    requires none { (history.items ≡ []) × (evidence.items ≡ []) }
    requires room { (length places.items ≤ vec_capacity history) × (length places.items ≤ vec_capacity evidence) }
    ensures { (sorted : List Posted) → places.items ≡ map (λ (p : Posted). Some p) sorted
        → (result.0.items ≡ map (λ (p : Posted). p.entry) sorted) × (result.1.items ≡ map (λ (p : Posted). p.evidence) sorted) }
{
    let mut history = history;
    let mut evidence = evidence;
    for place in places {
        let Some(post) = place else { unreachable!() };
        let Posted {
            entry,
            evidence: found,
        } = post;
        history.push_reserved(entry);
        evidence.push_reserved(found);
    }
    (history, evidence)
}
