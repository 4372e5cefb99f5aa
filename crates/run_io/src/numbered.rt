//! Calls that are numbered from 1, some of which fail.

ghost use Rattle.std.specs.Prelude.{◌≡◌, ℕ, ◌↔◌, IsTrue, IfOk, Contains};
ghost use Rattle.run_io.specs.Numbered.{NextFails, after_call};

use ketch_base::OutOfMemory;
use std::alloc::Global;
use std::collections::HashSet;
use std::marker::Model;

/// The numbers stand in a set, so that each call finds its own at once.
#[derive(Debug, Drop)]
pub(crate) struct NumberedCalls {
    failing: HashSet<u64>,
    made: u64,
}

impl Model for NumberedCalls {
    ghost use Rattle.run_io.specs.Numbered.{Numbered};

    ghost Value = { Numbered };

    ghost view = { λ calls. record { failing = calls.failing.keys; made = calls.made } };
}

impl NumberedCalls {
    pub(crate) fn new(alloc: Global, failing: Vec<u64>) -> Result<NumberedCalls, OutOfMemory>
        ensures made { IfOk result (λ calls. calls.made ≡ 0) }
        ensures failing { IfOk result (λ calls.
            (number : ℕ) → Contains calls.failing number ↔ Contains failing.items number) }
    {
        let failing = failing.into_iter().collect(alloc)?;
        Ok(NumberedCalls { failing, made: 0 })
    }

    /// Makes the next call, and says whether it fails.
    pub(crate) fn next_fails(&mut self) -> bool
        ensures fails { IsTrue result ↔ NextFails self.old }
        ensures made { self.new ≡ after_call self.old }
    {
        self.made = self.made.saturating_add(1);
        self.failing.contains(&self.made)
    }
}
