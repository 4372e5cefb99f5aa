//! The values that variables had last.

ghost use Rattle.std.specs.Prelude.{◌≡◌, ◌<◌, ◌≤◌, nat_abs, IfOk};

use cnf_base::CnfLit;
use ketch_base::OutOfMemory;
use sat_trail::Trail;
use std::alloc::Global;
use std::marker::Model;

/// For each variable from 1 to `vars` the value that it had when it was last taken off the trail, and false before.
///
/// A decision takes the variable with this value: so a search that goes back comes again to where it was, and doesn't
/// solve anew the parts of the formula that the conflict has nothing to do with (Pipatsrisawat and Darwiche, 2007).
#[derive(Drop)]
pub struct Phases {
    values: Vec<bool>,
}

impl Model for Phases {
    ghost use Rattle.std.specs.Prelude.{ℕ, ◌≡◌, ◌≤◌, ◌+◌, ◌-◌, vec_len};

    ghost Value = { ℕ };

    ghost view = { λ p. vec_len p.values - 1 };

    ghost invariant = { λ p. (1 ≤ vec_len p.values) × (vec_len p.values ≤ 4000001) };
}

impl Phases {
    pub fn new(alloc: Global, vars: u32) -> Result<Phases, OutOfMemory>
        requires { vars ≤ 4000000 }
        ensures { IfOk result (λ phases. phases ≡ vars) }
    {
        Ok(Phases {
            values: vec![in alloc; false; vars as usize + 1]?,
        })
    }

    /// Notes the values of the literals above a level.
    pub fn note(&mut self, trail: &Trail, level: u32)
        requires vars { trail.now.vars ≡ self.old }
        requires below { level ≤ trail.now.level }
        ensures { self.new ≡ self.old }
    {
        for place in trail.len_upto(level)..trail.len() {
            let lit = trail.at(place);
            self.values[lit.var() as usize] = lit.is_positive();
        }
    }

    /// The variable with the value that it had last.
    pub fn literal(&self, var: u32) -> CnfLit
        requires not_zero { 0 < var }
        requires in_range { var ≤ self.now }
        ensures { nat_abs result ≡ var }
    {
        let is_true = self.values[var as usize];
        let value = var as i32;
        CnfLit::new(if is_true { value } else { -value })
    }
}
