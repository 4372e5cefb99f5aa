//! The order of the queue as numbers.

ghost use Rattle.std.specs.Prelude.{◌≡◌, ◌≤◌, IfOk};

use ketch_base::OutOfMemory;
use std::alloc::Global;
use std::marker::Model;

/// Numbers begin in the middle, so that there is room below for all variables that come to the front.
const START: u64 = 1 << 63;

/// For each variable from 1 to `vars` a number that is the smaller the nearer the variable stands to the front of the queue.
/// So variables are sorted by the order of the queue without a walk over it.
#[derive(Drop)]
pub struct Ranks {
    ranks: Vec<u64>,
    /// The number of the front.
    least: u64,
}

impl Model for Ranks {
    ghost use Rattle.std.specs.Prelude.{ℕ, ◌≡◌, ◌≤◌, ◌+◌, ◌-◌, vec_len};

    ghost Value = { ℕ };

    ghost view = { λ r. vec_len r.ranks - 1 };

    ghost invariant = { λ r. (1 ≤ vec_len r.ranks) × (vec_len r.ranks ≤ 4000001) };
}

impl Ranks {
    /// Of the queue from 1 to this number.
    pub fn new(alloc: Global, vars: u32) -> Result<Ranks, OutOfMemory>
        requires { vars ≤ 4000000 }
        ensures { IfOk result (λ ranks. ranks ≡ vars) }
    {
        let mut ranks = vec![in alloc; START; vars as usize + 1]?;
        for var in 0..vars + 1 {
            ranks[var as usize] = START + var as u64;
        }
        Ok(Ranks {
            ranks,
            least: START,
        })
    }

    /// The variable came to the front.
    pub fn note_front(&mut self, var: u32)
        requires { var ≤ self.old }
        ensures { self.new ≡ self.old }
    {
        self.least = self.least.wrapping_sub(1);
        self.ranks[var as usize] = self.least;
    }

    /// The variable's number, and the greatest for one that isn't in the queue.
    pub fn of(&self, var: u32) -> u64 {
        let index = var as usize;
        if index < self.ranks.len() {
            self.ranks[index]
        } else {
            u64::MAX
        }
    }
}
