//! Watches in linked lists, one list for each literal: a watch moves from one list to another and takes no memory.

ghost use Rattle.std.specs.Prelude.{◌≡◌, ◌≢◌, ℕ, ℤ, List, Option, None, Some, [], ◌∷◌, ◌++◌, ◌+◌, ◌^◌, ◌<◌, ◌≤◌, All, length, take, slice_get, slice_set};
ghost use Rattle.sat_watch.specs.declared.links.Watch.{Watch};
ghost use Rattle.sat_watch.specs.Links.{watch_lits, head_of, watchers, AreLinked, StandsBehind, LeadsPast};
ghost use Rattle.cnf_base.specs.Literal.{lit_index};

use cnf_base::CnfLit;
use std::marker::Model;

/// A watch, or none, in four bytes, where an `Option` takes eight. Watches go from 0 to 2^32 - 2.
#[derive(Clone, Copy, Debug)]
pub struct Link {
    number: u32,
}

impl Model for Link {
    ghost use Rattle.std.specs.Prelude.{ℕ, Option};
    ghost use Rattle.std.proofs.Common.{ap};
    ghost use Rattle.sat_watch.specs.Slots.{numbered, number_of, number_of-numbered};

    ghost Value = { Option ℕ };

    ghost view = { λ l. numbered l.number };

    ghost inverse = { λ o. record { number = number_of o } };

    ghost inverse_ok = { λ l _. ap (λ n. record { number = n }) (number_of-numbered l.number) };
}

impl Link {
    #[inline]
    pub fn none() -> Link
        ensures { result ≡ None }
    {
        Link { number: 0 }
    }

    #[inline]
    pub fn to(watch: u32) -> Link
        requires { watch + 1 < 2 ^ 32 }
        ensures { result ≡ Some watch }
    {
        Link { number: watch + 1 }
    }

    #[inline]
    pub fn watch(self) -> Option<u32>
        ensures { result ≡ self }
    {
        if self.number == 0 {
            None
        } else {
            Some(self.number - 1)
        }
    }
}

/// A literal that a clause watches, the next watch of the same literal, and the place in the clause at which the last
/// search for a literal that isn't false ended.
#[derive(Clone, Copy, Debug)]
pub struct Watch {
    pub lit: CnfLit,
    pub next: Link,
    pub search: u32,
}

/// The first watch of a literal.
#[inline]
pub fn first_watch(heads: &[Link], lit: CnfLit) -> Option<u32>
    requires { lit_index lit < length heads.now }
    ensures { (watches : List Watch) → AreLinked heads.now watches → result ≡ slice_get (watchers heads.now watches lit) 0 }
{
    heads[lit.index()].watch()
}

/// The watch that follows in the list.
#[inline]
pub fn next_watch(watches: &[Watch], watch: u32) -> Option<u32>
    requires { watch < length watches.now }
    ensures { (heads : List (Option ℕ)) (l : ℤ) (before after : List ℕ) → AreLinked heads watches.now
        → watchers heads watches.now l ≡ before ++ watch ∷ after → result ≡ slice_get after 0 }
{
    watches[watch as usize].next.watch()
}

/// Puts a watch of this literal at the front of the literal's list, where it stands in no list.
fn link_front(heads: &mut [Link], watches: &mut [Watch], watch: u32, lit: CnfLit, search: u32)
    requires few { length watches.old < 2 ^ 32 }
    requires watch { watch < length watches.old }
    requires in_range { lit_index lit < length heads.old }
    ensures heads { heads.new ≡ slice_set heads.old (lit_index lit) (Some watch) }
    ensures watches { watches.new ≡ slice_set watches.old watch (record { lit = lit; next = head_of heads.old lit; search = search }) }
{
    let index = lit.index();
    watches[watch as usize] = Watch {
        lit,
        next: heads[index],
        search,
    };
    heads[index] = Link::to(watch);
}

/// Takes a watch out of its list: the link of the watch before it, or else the list's first, skips it.
fn lead_past(heads: &mut [Link], watches: &mut [Watch], previous: Option<u32>, watch: u32)
    requires stands { StandsBehind heads.old watches.old previous watch }
    requires linked { AreLinked heads.old watches.old }
    ensures { (x : Watch) → slice_get watches.old watch ≡ Some x → LeadsPast heads.old watches.old x previous heads.new watches.new }
{
    let next = watches[watch as usize].next;
    match previous {
        None => heads[watches[watch as usize].lit.index()] = next,
        Some(before) => watches[before as usize].next = next,
    }
}

/// Links the watches from this one on, each at the front of its literal's list, where those before it are linked.
pub fn link_from(heads: &mut [Link], watches: &mut [Watch], from: usize)
    requires few { length watches.old < 2 ^ 32 }
    requires in_range { All (λ (w : Watch). lit_index w.lit < length heads.old) watches.old }
    requires from { from ≤ length watches.old }
    requires linked { AreLinked heads.old (take from watches.old) }
    ensures linked { AreLinked heads.new watches.new }
    ensures lits { watch_lits watches.new ≡ watch_lits watches.old }
{
    for place in from..watches.len() {
        let lit = watches[place].lit;
        link_front(heads, watches, place as u32, lit, 0);
    }
}

/// Takes a watch out from behind the one before it, and puts it at the front of another literal's list. The search for that
/// literal ended at `search`.
pub fn move_watch(
    heads: &mut [Link],
    watches: &mut [Watch],
    previous: Option<u32>,
    watch: u32,
    lit: CnfLit,
    search: u32,
)
    requires few { length watches.old < 2 ^ 32 }
    requires linked { AreLinked heads.old watches.old }
    requires stands { StandsBehind heads.old watches.old previous watch }
    requires in_range { lit_index lit < length heads.old }
    requires other { (x : Watch) → slice_get watches.old watch ≡ Some x → lit ≢ x.lit }
    ensures linked { AreLinked heads.new watches.new }
    ensures lits { watch_lits watches.new ≡ slice_set (watch_lits watches.old) watch lit }
    ensures to { watchers heads.new watches.new lit ≡ watch ∷ watchers heads.old watches.old lit }
    ensures from { (x : Watch) (before after : List ℕ) → slice_get watches.old watch ≡ Some x
        → watchers heads.old watches.old x.lit ≡ before ++ watch ∷ after → watchers heads.new watches.new x.lit ≡ before ++ after }
    ensures others { (x : Watch) (l : ℤ) → slice_get watches.old watch ≡ Some x → l ≢ lit → l ≢ x.lit
        → watchers heads.new watches.new l ≡ watchers heads.old watches.old l }
{
    lead_past(heads, watches, previous, watch);
    link_front(heads, watches, watch, lit, search);
}

/// Empties all lists.
pub fn unlink_all(heads: &mut [Link])
    ensures { AreLinked heads.new [] }
{
    for head in heads.iter_mut() {
        *head = Link::none();
    }
}
