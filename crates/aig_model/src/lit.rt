//! Literals.

ghost use Rattle.std.specs.Prelude.{◌≡◌, ◌+◌, ◌%◌, ◌↔◌, IsTrue};
ghost use Rattle.aig_model.specs.Literal.{var, is_negated};

use std::marker::Model;

/// A literal: twice its variable, plus one where it is negated. The literals 0 and 1 are false and true.
#[derive(Clone, Copy, Debug, PartialEq, Eq)]
pub struct Lit {
    value: u32,
}

impl Model for Lit {
    ghost use Rattle.std.specs.Prelude.{ℕ};

    ghost Value = { ℕ };

    ghost view = { λ l. l.value };

    ghost inverse = { λ n. record { value = n } };
}

impl Lit {
    pub fn new(value: u32) -> Lit
        ensures { result ≡ value }
    {
        Lit { value }
    }

    pub fn value(self) -> u32
        ensures { result ≡ self }
    {
        self.value
    }

    pub fn var(self) -> u32
        ensures { result ≡ var self }
    {
        self.value / 2
    }

    pub fn is_negated(self) -> bool
        ensures { result ≡ is_negated self }
    {
        self.value % 2 == 1
    }

    /// The other literal of the same variable.
    pub fn negate(self) -> Lit
        ensures variable { var result ≡ var self }
        ensures sign { result % 2 + self % 2 ≡ 1 }
    {
        Lit {
            value: self.value ^ 1,
        }
    }
}
