//! Lists of goals.

ghost use Rattle.std.specs.Prelude.{◌≡◌, ◌↔◌, [], ◌∷◌, ◌++◌, ◌<◌, length, slice_index_or, OnOk, OnErr, IsTrue};
ghost use Rattle.std.specs.List.Sorted.{IsStrictlyIncreasing};
ghost use Rattle.aig_model.specs.Goals.{IsAboveLast};

use ketch_base::OutOfMemory;
use std::alloc::Global;
use std::marker::Model;

/// Goals in rising order.
#[derive(Debug, Drop)]
pub struct Goals {
    goals: Vec<u32>,
}

impl Model for Goals {
    ghost use Rattle.std.specs.Prelude.{List, ℕ};
    ghost use Rattle.std.specs.List.Sorted.{IsStrictlyIncreasing};

    ghost Value = { List ℕ };

    ghost view = { λ g. g.goals.items };

    ghost invariant = { λ g. IsStrictlyIncreasing g.goals.items };
}

impl Goals {
    /// Takes no memory; later calls of `push` take theirs from `alloc`.
    pub fn new(alloc: Global) -> Goals
        ensures { result ≡ [] }
    {
        Goals {
            goals: Vec::new(alloc),
        }
    }

    /// Says that the goals rise.
    pub fn is_well_formed(&self)
        ensures { IsStrictlyIncreasing self.now }
    {
        let _ = &self.goals;
    }

    pub fn len(&self) -> usize
        ensures value { result ≡ length self.now }
        ensures rising { IsStrictlyIncreasing self.now }
    {
        self.goals.len()
    }

    pub fn is_empty(&self) -> bool
        ensures { IsTrue result ↔ (self.now ≡ []) }
    {
        self.goals.is_empty()
    }

    pub fn get(&self, place: usize) -> &u32
        requires { place < length self.now }
        ensures { result.now ≡ slice_index_or self.now place result.now }
    {
        &self.goals[place]
    }

    pub fn as_slice(&self) -> &[u32]
        ensures { result.now ≡ self.now }
    {
        self.goals.as_slice()
    }

    /// Leaves the list as it was where it finds no memory.
    pub fn push(&mut self, goal: u32) -> Result<(), OutOfMemory>
        requires { IsAboveLast self.old goal }
        ensures ok { OnOk result (self.new ≡ self.old ++ goal ∷ []) }
        ensures err { OnErr result (self.new ≡ self.old) }
    {
        self.goals.push(goal)?;
        Ok(())
    }
}
