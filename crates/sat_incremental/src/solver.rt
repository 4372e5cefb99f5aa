//! The solver as its callers see it.

ghost use Rattle.std.specs.Prelude.{◌≡◌, ◌≤◌, ℕ, [], IfOk, OnOk};
ghost use Rattle.cnf_base.specs.Meaning.{IsWithin};
ghost use Rattle.sat_incremental.specs.Entries.{IsDerivation, GrowsByClause, GrowsByLemmas};
ghost use Rattle.sat_incremental.specs.Outcomes.{IsOutcome};

use crate::ask::ask;
use crate::entry::Entries;
use crate::give::give;
use crate::outcome::Outcome;
use crate::search::Search;
use cnf_base::{Clause, CnfLit};
use ketch_base::OutOfMemory;
use std::alloc::Global;
use std::marker::Model;

/// Clauses of a formula over the variables 1 to `vars`, and the lemmas that questions of it have brought.
///
/// A call that finds no memory spoils it: all later ones answer the same.
#[derive(Drop)]
pub struct Incremental {
    search: Search,
    /// Whether no call has found too little memory.
    is_whole: bool,
    alloc: Global,
}

impl Model for Incremental {
    ghost use Rattle.std.specs.Prelude.{IsTrue};
    ghost use Rattle.sat_incremental.specs.Entries.{Session};
    ghost use Rattle.sat_incremental.specs.Searching.{IsAtEase, session};

    ghost Value = { Session };

    ghost view = { λ i. session i.search };

    ghost invariant = { λ i. IsTrue i.is_whole → IsAtEase i.search };
}

impl Incremental {
    /// Of a formula without a clause.
    pub fn new(alloc: Global, vars: u32) -> Result<Incremental, OutOfMemory>
        requires { vars ≤ 4000000 }
        ensures { IfOk result (λ solver. solver ≡ record { vars = vars; entries = [] }) }
    {
        Ok(Incremental {
            search: Search::new(alloc, vars)?,
            is_whole: true,
            alloc,
        })
    }

    pub fn vars(&self) -> u32
        ensures { result ≡ self.now.vars }
    {
        self.search.vars
    }

    pub fn entries(&self) -> &Entries
        ensures { result.now ≡ self.now.entries }
    {
        &self.search.entries
    }

    /// Adds a clause to the formula.
    pub fn add(&mut self, clause: &Clause) -> Result<(), OutOfMemory>
        requires { IsWithin self.old.vars clause.now }
        ensures vars { OnOk result (self.new.vars ≡ self.old.vars) }
        ensures clause { OnOk result (GrowsByClause self.old.entries clause.now self.new.entries) }
        ensures derivation { OnOk result (IsDerivation self.new.entries) }
    {
        if !self.is_whole {
            return Err(OutOfMemory);
        }
        self.is_whole = false;
        give(self.alloc, &mut self.search, clause)?;
        self.is_whole = true;
        Ok(())
    }

    /// Searches for a model of the formula that makes each assumption true, and learns at most so many lemmas from
    /// conflicts.
    pub fn solve_under(
        &mut self,
        assumptions: &[CnfLit],
        lemmas: u64,
    ) -> Result<Outcome, OutOfMemory>
        requires { IsWithin self.old.vars assumptions.now }
        ensures vars { OnOk result (self.new.vars ≡ self.old.vars) }
        ensures lemmas { OnOk result ((number : ℕ) × GrowsByLemmas self.old.entries number self.new.entries) }
        ensures derivation { OnOk result (IsDerivation self.new.entries) }
        ensures outcome { IfOk result (IsOutcome assumptions.now self.new) }
        ensures spent { IfOk result (λ outcome. outcome ≡ Outcome.Spent → GrowsByLemmas self.old.entries lemmas self.new.entries) }
    {
        if !self.is_whole {
            return Err(OutOfMemory);
        }
        if let Some(id) = self.search.refuted {
            return Ok(Outcome::Core(id));
        }
        self.is_whole = false;
        let outcome = ask(self.alloc, &mut self.search, assumptions, lemmas)?;
        self.is_whole = true;
        Ok(outcome)
    }
}
