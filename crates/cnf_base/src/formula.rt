//! Formulas.

ghost use Rattle.std.specs.Prelude.{◌≡◌, ◌≤◌, ◌++◌, ◌∷◌, [], length, take, All, OnOk, OnErr};
ghost use Rattle.cnf_base.specs.Meaning.{IsWithin};

use crate::clause::{Clause, Clauses};
use ketch_base::OutOfMemory;
use std::alloc::Global;
use std::marker::Model;

/// A number of variables, and clauses over these, of which all must be true.
#[derive(Debug, Drop)]
pub struct Formula {
    vars: u32,
    clauses: Clauses,
}

impl Model for Formula {
    ghost use Rattle.std.specs.Prelude.{All, ◌≤◌};
    ghost use Rattle.cnf_base.specs.Meaning.{CnfFormula, IsWithin};

    ghost Value = { CnfFormula };

    ghost view = { λ f. record { vars = f.vars; clauses = f.clauses } };

    ghost invariant = { λ f. (f.vars ≤ 4000000) × All (IsWithin f.vars) f.clauses };
}

impl Formula {
    /// Takes no memory; later calls of `add` take theirs from `alloc`.
    pub fn new(alloc: Global, vars: u32) -> Formula
        requires { vars ≤ 4000000 }
        ensures { result ≡ record { vars = vars; clauses = [] } }
    {
        Formula {
            vars,
            clauses: Clauses::new(alloc),
        }
    }

    /// Says that the variables are few, and that each clause is over them.
    pub fn is_well_formed(&self)
        ensures limit { self.now.vars ≤ 4000000 }
        ensures in_range { All (IsWithin self.now.vars) self.now.clauses }
    {
        let _ = &self.vars;
    }

    /// The variables are 1 up to this number.
    pub fn vars(&self) -> u32
        ensures value { result ≡ self.now.vars }
        ensures limit { result ≤ 4000000 }
    {
        self.vars
    }

    pub fn clauses(&self) -> &Clauses
        ensures value { result.now ≡ self.now.clauses }
        ensures in_range { All (IsWithin self.now.vars) self.now.clauses }
    {
        &self.clauses
    }

    /// Leaves the formula as it was where it finds no memory.
    pub fn add(&mut self, clause: Clause) -> Result<(), OutOfMemory>
        requires { IsWithin self.old.vars clause }
        ensures vars { self.new.vars ≡ self.old.vars }
        ensures ok { OnOk result (self.new.clauses ≡ self.old.clauses ++ clause ∷ []) }
        ensures err { OnErr result (self.new ≡ self.old) }
    {
        self.clauses.push(clause)
    }

    /// Keeps the first `len` clauses.
    pub fn truncate(&mut self, len: usize)
        requires { len ≤ length self.old.clauses }
        ensures { self.new ≡ record { vars = self.old.vars; clauses = take len self.old.clauses } }
    {
        self.clauses.truncate(len);
    }
}
