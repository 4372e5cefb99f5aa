//! The lists of watches as others see them.

ghost use Rattle.std.specs.Prelude.{◌≡◌, ◌+◌, ◌*◌, ◌/◌, ◌^◌, ◌<◌, ◌≤◌, ◌++◌, ◌∷◌, ℕ, ℤ, Some, List, Contains, length, nat_abs, option_map, slice_get};
ghost use Rattle.sat_trail.specs.declared.clause_id.ClauseId.{ClauseId};
ghost use Rattle.sat_watch.specs.Links.{watch_lits};
ghost use Rattle.sat_watch.specs.Lists.{clause_of, watching, Watches, AreLists, StandsWhereWatched, WatchedStands, StandsOnce};

use crate::links::{Link, Watch, first_watch, next_watch};
use cnf_base::CnfLit;
use sat_trail::ClauseId;
use std::marker::Model;

/// For each literal the clauses that watch it, as a book has them.
#[derive(Drop)]
pub struct WatchLists<'a> {
    vars: u32,
    heads: &'a [Link],
    watches: &'a [Watch],
}

impl<'a> Model for WatchLists<'a> {
    ghost use Rattle.sat_watch.specs.Lists.{WatchState, AreLists};

    ghost Value = { WatchState };

    ghost view = { λ w. record { vars = w.vars; heads = w.heads.now; watches = w.watches.now } };

    ghost invariant = { λ w. AreLists (record { vars = w.vars; heads = w.heads.now; watches = w.watches.now }) };
}

impl<'a> WatchLists<'a> {
    pub(crate) fn new(vars: u32, heads: &'a [Link], watches: &'a [Watch]) -> WatchLists<'a>
        requires { AreLists (record { vars = vars; heads = heads.now; watches = watches.now }) }
        ensures { result ≡ record { vars = vars; heads = heads.now; watches = watches.now } }
    {
        WatchLists {
            vars,
            heads,
            watches,
        }
    }

    /// The two literals that a clause watches.
    pub fn watched(&self, id: ClauseId) -> (CnfLit, CnfLit)
        requires { (a : ℤ) × (b : ℤ) × Watches self.now id a b }
        ensures { Watches self.now id result.0 result.1 }
    {
        match id {
            ClauseId::Book(place) => {
                let first = 2 * place as usize;
                (self.watches[first].lit, self.watches[first + 1].lit)
            }
            ClauseId::Unit(_) => unreachable!(),
        }
    }

    /// The first clause that watches the literal.
    pub fn first_watch(&self, lit: CnfLit) -> Option<ClauseId>
        requires { nat_abs lit ≤ self.now.vars }
        ensures { result ≡ slice_get (watching self.now lit) 0 }
    {
        id_of(first_watch(self.heads, lit))
    }

    /// The clause that follows in the literal's list.
    pub fn next_watch(&self, lit: CnfLit, id: ClauseId) -> Option<ClauseId>
        requires { Contains (watching self.now lit) id }
        ensures { (before after : List ClauseId) → watching self.now lit ≡ before ++ id ∷ after → result ≡ slice_get after 0 }
    {
        match id {
            ClauseId::Book(place) => {
                let watch = watch_of(self.watches, place, lit);
                id_of(next_watch(self.watches, watch))
            }
            ClauseId::Unit(_) => unreachable!(),
        }
    }

    /// A law: a clause stands once in the list of each of the two literals that it watches, and in no other.
    pub fn stand_once(&self)
        ensures where_watched { StandsWhereWatched self.now }
        ensures watched { WatchedStands self.now }
        ensures once { StandsOnce self.now }
    {
        let _ = &self.vars;
    }
}

/// The clause of a watch.
fn id_of(watch: Option<u32>) -> Option<ClauseId>
    ensures { result ≡ option_map clause_of watch }
{
    match watch {
        Some(number) => Some(ClauseId::Book(number as u64 / 2)),
        None => None,
    }
}

/// The clause's watch of this literal.
fn watch_of(watches: &[Watch], place: u64, lit: CnfLit) -> u32
    requires few { length watches.now + 1 < 2 ^ 32 }
    requires there { (w : ℕ) × (w / 2 ≡ place) × (slice_get (watch_lits watches.now) w ≡ Some lit) }
    ensures clause { result / 2 ≡ place }
    ensures lit { slice_get (watch_lits watches.now) result ≡ Some lit }
{
    let first = 2 * place as usize;
    if watches[first].lit == lit {
        first as u32
    } else {
        first as u32 + 1
    }
}
