//! Literals.

ghost use Rattle.std.specs.Prelude.{◌≡◌, ◌≢◌, ◌↔◌, ◌+◌, ◌*◌, ◌^◌, ◌<◌, ◌≤◌, pos, ◌<ℤ◌, nat_abs, neg_ℤ, unsigned_abs, IsTrue};
ghost use Rattle.cnf_base.specs.Literal.{lit_index};

use std::marker::Model;

/// A variable, from 1 on, or its negation as the negative number.
#[derive(Clone, Copy, Debug, PartialEq, Eq)]
pub struct CnfLit {
    value: i32,
}

impl Model for CnfLit {
    ghost use Rattle.std.specs.Prelude.{◌≢◌, ℤ, pos};

    ghost Value = { ℤ };

    ghost view = { λ l. l.value };

    ghost invariant = { λ l. l.value ≢ pos 0 };

    ghost inverse = { λ z. record { value = z } };
}

impl CnfLit {
    pub fn new(value: i32) -> CnfLit
        requires { value ≢ pos 0 }
        ensures { result ≡ value }
    {
        CnfLit { value }
    }

    pub fn value(self) -> i32
        ensures same { result ≡ self }
        ensures not_zero { self ≢ pos 0 }
    {
        self.value
    }

    /// The literal without its sign: of the least i32 it is 2^31, though no literal is its negation.
    pub fn var(self) -> u32
        ensures size { result ≡ unsigned_abs self }
        ensures not_zero { result ≢ 0 }
    {
        self.value.unsigned_abs()
    }

    pub fn is_positive(self) -> bool
        ensures { IsTrue result ↔ (pos 0 <ℤ self) }
    {
        self.value > 0
    }

    /// The least i32 alone has no negation.
    #[inline]
    pub fn negation(self) -> CnfLit
        requires { nat_abs self < 2 ^ 31 }
        ensures { result ≡ neg_ℤ self }
    {
        CnfLit { value: -self.value }
    }

    /// The literal's place in a list that has two places for each variable from 0 on.
    #[inline]
    pub fn index(self) -> usize
        ensures place { result ≡ lit_index self }
        ensures one_of_two { (2 * nat_abs self ≤ result) × (result ≤ 2 * nat_abs self + 1) }
    {
        2 * self.var() as usize + usize::from(!self.is_positive())
    }
}
