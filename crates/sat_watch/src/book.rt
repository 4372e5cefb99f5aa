//! The book of clauses.

ghost use Rattle.std.specs.Prelude.{◌≡◌, ℤ, List, ◌≤◌, ◌++◌, ◌∷◌, [], All, length, take, IsTrue, ◌↔◌, IfOk, OnOk, OnErr};
ghost use Rattle.sat_trail.specs.Trail.{lits};
ghost use Rattle.sat_watch.specs.Lists.{AreListsOf};
ghost use Rattle.sat_watch.specs.Book.{IsBookClause, IsClauseOf, NoneFalseBelow, NoneUnitBelow, marks, ExtendsByUnits, ScanIs};

use crate::append::append_watched;
use crate::arena::Arena;
use crate::links::{Link, Watch};
use crate::mark::Mark;
use crate::propagate::propagate_watches;
use crate::scan::{Scan, is_quiet};
use crate::seen::{first_marks, note, start_of};
use crate::watch_lists::WatchLists;
use cnf_base::{Clause, CnfLit};
use ketch_base::OutOfMemory;
use sat_trail::{ClauseId, Trail};
use std::alloc::Global;
use std::marker::Model;

/// Clauses of two literals or more, and their propagation.
///
/// Variables go from 1 to `vars`, at most 4,000,000.
#[derive(Debug, Drop)]
pub struct ClauseBook {
    vars: u32,
    clauses: Arena,
    heads: Vec<Link>,
    watches: Vec<Watch>,
    seen: Vec<Mark>,
    count: u32,
    watched_count: usize,
    quiet: bool,
}

impl Model for ClauseBook {
    ghost use Rattle.std.specs.Prelude.{take};
    ghost use Rattle.sat_watch.specs.Book.{BookState};
    ghost use Rattle.sat_watch.specs.Kept.{IsKept};

    ghost Value = { BookState };

    ghost view = { λ b. record { vars = b.vars; clauses = b.clauses; seen = take b.count b.seen.items } };

    ghost invariant = { λ b. IsKept (record { vars = b.vars; clauses = b.clauses; seen = take b.count b.seen.items })
        b.heads.items b.watches.items b.seen.items b.count b.watched_count b.quiet };
}

impl ClauseBook {
    pub fn new(alloc: Global, vars: u32) -> Result<ClauseBook, OutOfMemory>
        requires { vars ≤ 4000000 }
        ensures { IfOk result (λ book. book ≡ record { vars = vars; clauses = []; seen = [] }) }
    {
        let heads = vec![in alloc; Link::none(); 2 * vars as usize + 2]?;
        let blank = Mark {
            lit: CnfLit::new(1),
            level: 0,
        };
        let seen = vec![in alloc; blank; vars as usize]?;
        Ok(ClauseBook {
            vars,
            clauses: Arena::new(alloc),
            heads,
            watches: Vec::new(alloc),
            seen,
            count: 0,
            watched_count: 0,
            quiet: true,
        })
    }

    /// Says that each clause has two literals or more, over distinct variables of the book.
    pub fn is_well_formed(&self)
        ensures { All (IsBookClause self.now.vars) self.now.clauses }
    {
        let _ = &self.vars;
    }

    /// The variables are 1 up to this number.
    pub fn vars(&self) -> u32
        ensures value { result ≡ self.now.vars }
        ensures well_formed { All (IsBookClause self.now.vars) self.now.clauses }
    {
        self.vars
    }

    /// How many clauses there are.
    pub fn len(&self) -> usize
        ensures { result ≡ length self.now.clauses }
    {
        self.clauses.len()
    }

    pub fn is_empty(&self) -> bool
        ensures { IsTrue result ↔ (self.now.clauses ≡ []) }
    {
        self.clauses.len() == 0
    }

    /// Adds the clause at the end. The trail is the one that is propagated.
    pub fn add(&mut self, lits: &Clause, trail: &Trail) -> Result<ClauseId, OutOfMemory>
        requires clause { IsBookClause self.old.vars lits.now }
        requires vars { trail.now.vars ≡ self.old.vars }
        ensures id { IfOk result (λ id. id ≡ ClauseId.Book (length self.old.clauses)) }
        ensures ok { OnOk result (self.new ≡ record self.old { clauses = self.old.clauses ++ lits.now ∷ [] }) }
        ensures err { OnErr result (self.new ≡ self.old) }
    {
        let place = self.clauses.len();
        append_watched(
            &mut self.clauses,
            &mut self.heads,
            &mut self.watches,
            lits.as_slice(),
            trail,
        )?;
        Ok(ClauseId::Book(place as u64))
    }

    /// The id is one of those that `add` answered.
    pub fn clause(&self, id: ClauseId) -> &[CnfLit]
        requires { (c : List ℤ) × IsClauseOf self.now.clauses id c }
        ensures { IsClauseOf self.now.clauses id result.now }
    {
        match id {
            ClauseId::Book(place) => self.clauses.get(place as usize),
            ClauseId::Unit(_) => unreachable!(),
        }
    }

    /// Which clauses watch which literals.
    pub fn watch_lists(&self) -> WatchLists<'_>
        ensures { AreListsOf self.now result }
    {
        WatchLists::new(self.vars, &self.heads, &self.watches)
    }

    /// Puts on the trail what its literals force, until nothing is left or a clause is false. It may be called again after
    /// a conflict, and then finds a clause that is false for as long as there is one.
    pub fn propagate(&mut self, trail: &mut Trail) -> Scan
        requires vars { trail.old.vars ≡ self.old.vars }
        requires agrees { take trail.old.low (marks trail.old.assignments) ≡ take trail.old.low self.old.seen }
        requires none_false { NoneFalseBelow self.old.clauses trail.old }
        requires none_unit { NoneUnitBelow self.old.clauses trail.old }
        ensures book { self.new ≡ record self.old { seen = marks trail.new.assignments } }
        ensures by_units { ExtendsByUnits self.old.clauses trail.old trail.new }
        ensures marked { trail.new.low ≡ length trail.new.assignments }
        ensures answer { ScanIs self.old.clauses (lits trail.new.assignments) result }
    {
        trail.is_well_formed();
        let low = trail.low();
        let start = start_of(first_marks(&self.seen, self.count), low, self.quiet);
        let scan = propagate_watches(
            &self.clauses,
            &mut self.heads,
            &mut self.watches,
            self.watched_count,
            start,
            trail,
        );
        note(&mut self.seen, trail, low);
        let count = trail.len();
        let watched_count = self.clauses.len();
        self.count = count;
        self.watched_count = watched_count;
        self.quiet = is_quiet(scan);
        trail.mark();
        scan
    }
}
