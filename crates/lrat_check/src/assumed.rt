//! The literals that a step assumes.

ghost use Rattle.std.specs.Prelude.{◌≡◌, ◌≢◌, pos, [], ◌∷◌, ◌++◌, neg_ℤ, unsigned_abs, IsFalse, IfOk, OnOk, OnErr};
ghost use Rattle.cnf_base.specs.Status.{has};
ghost use Rattle.lrat_check.specs.Assumptions.{truth_in, flipped, sign_at, AreSignsOf};

use crate::signs::Signs;
use cnf_base::CnfLit;
use ketch_base::OutOfMemory;
use std::alloc::Global;
use std::marker::Model;

/// A literal under those that are assumed.
#[derive(Clone, Copy, Debug, PartialEq, Eq)]
pub enum Truth {
    True,
    False,
    Open,
}

/// A literal or, where `negated` is set, its negation, since that of the least i32 is no literal of its own.
#[derive(Debug, Drop)]
pub struct Assumption {
    lit: CnfLit,
    negated: bool,
}

impl Model for Assumption {
    ghost use Rattle.std.specs.Prelude.{ℤ};
    ghost use Rattle.lrat_check.specs.Assumptions.{flipped};

    ghost Value = { ℤ };

    ghost view = { λ a. flipped a.negated a.lit };
}

impl Assumption {
    fn new(lit: CnfLit, negated: bool) -> Assumption
        ensures { result ≡ flipped negated lit }
    {
        Assumption { lit, negated }
    }

    fn var(&self) -> u32
        ensures { result ≡ unsigned_abs self.now }
    {
        self.lit.var()
    }
}

/// The literals that are assumed, in the order in which they were.
#[derive(Debug, Drop)]
pub struct Assumed {
    signs: Signs,
    trail: Vec<Assumption>,
}

impl Model for Assumed {
    ghost use Rattle.std.specs.Prelude.{ℤ, List};
    ghost use Rattle.lrat_check.specs.Assumptions.{sign_at, AreSignsOf};

    ghost Value = { List ℤ };

    ghost view = { λ a. a.trail.items };

    ghost invariant = { λ a. AreSignsOf a.trail.items (sign_at a.signs) };
}

impl Assumed {
    pub fn new(alloc: Global, vars: u32) -> Result<Assumed, OutOfMemory>
        ensures { IfOk result (λ assumed. assumed ≡ []) }
    {
        let signs = Signs::new(alloc, vars)?;
        Ok(Assumed {
            signs,
            trail: Vec::new(alloc),
        })
    }

    pub fn truth(&self, lit: CnfLit) -> Truth
        ensures value { result ≡ truth_in self.now lit }
        ensures not_zero { lit ≢ pos 0 }
    {
        match self.signs.at(lit.var()) {
            None => Truth::Open,
            Some(sign) if sign == lit.is_positive() => Truth::True,
            Some(_) => Truth::False,
        }
    }

    /// Assumes the literal, or its negation where `negated` is set.
    pub fn assume(&mut self, lit: CnfLit, negated: bool) -> Result<(), OutOfMemory>
        requires { IsFalse (has self.old (neg_ℤ (flipped negated lit))) }
        ensures ok { OnOk result (self.new ≡ self.old ++ flipped negated lit ∷ []) }
        ensures err { OnErr result (self.new ≡ self.old) }
    {
        self.trail.push(Assumption::new(lit, negated))?;
        match self.signs.set(lit.var(), lit.is_positive() != negated) {
            Ok(()) => Ok(()),
            Err(error) => {
                self.trail.pop();
                Err(error)
            }
        }
    }

    pub fn clear(&mut self)
        ensures { self.new ≡ [] }
    {
        take_back(&mut self.signs, &self.trail);
        self.trail.clear();
    }
}

fn take_back(signs: &mut Signs, trail: &[Assumption])
    requires { AreSignsOf trail.now (sign_at signs.old) }
    ensures { AreSignsOf [] (sign_at signs.new) }
{
    for assumption in trail {
        signs.unset(assumption.var());
    }
}
