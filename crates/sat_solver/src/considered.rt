//! The literals of level 0 that were considered for lemmas.

ghost use Rattle.std.specs.Prelude.{◌≡◌, ◌≤◌, IfOk};

use ketch_base::OutOfMemory;
use std::alloc::Global;
use std::marker::Model;

/// A set of variables, which contracts see as the number of those that it may have, the variables 1 to `vars`.
#[derive(Drop)]
pub struct Considered {
    considered: Vec<bool>,
}

impl Model for Considered {
    ghost use Rattle.std.specs.Prelude.{ℕ, ◌≡◌, ◌≤◌, ◌+◌, ◌-◌, vec_len};

    ghost Value = { ℕ };

    ghost view = { λ w. vec_len w.considered - 1 };

    ghost invariant = { λ w. (1 ≤ vec_len w.considered) × (vec_len w.considered ≤ 4000001) };
}

impl Considered {
    /// With no variable.
    pub fn new(alloc: Global, vars: u32) -> Result<Considered, OutOfMemory>
        requires { vars ≤ 4000000 }
        ensures { IfOk result (λ considered. considered ≡ vars) }
    {
        Ok(Considered {
            considered: vec![in alloc; false; vars as usize + 1]?,
        })
    }

    /// Adds a variable: whether it is new.
    pub fn insert(&mut self, var: u32) -> bool
        requires { var ≤ self.old }
        ensures { self.new ≡ self.old }
    {
        let index = var as usize;
        let is_new = !self.considered[index];
        self.considered[index] = true;
        is_new
    }
}
