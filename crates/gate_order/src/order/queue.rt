//! Places that are ready, the least one first.

ghost use Rattle.std.specs.Prelude.{◌≡◌, ◌≤◌, [], ◌∷◌, All, OnOk, IfSome, IfNone};
ghost use Rattle.std.specs.List.Sorted.{IsPermutation};

use ketch_base::OutOfMemory;
use std::alloc::Global;
use std::cmp::Reverse;
use std::collections::BinaryHeap;
use std::marker::Model;

/// A queue that hands out the least place first, seen as a list in any order.
#[derive(Drop)]
pub struct Queue {
    heap: BinaryHeap<Reverse<u32>>,
}

impl Model for Queue {
    ghost use Rattle.std.specs.Prelude.{List, ℕ, map};
    ghost use Rattle.std.specs.Ordering.{nat_cmp};
    ghost use Rattle.std.specs.BinaryHeap.{heap_items, IsHeap};
    ghost use Rattle.std.specs.declared.cmp.Reverse.{Reverse};

    ghost Value = { List ℕ };

    ghost view = { λ q. map (λ (r : Reverse ℕ). r.0) (heap_items q.heap) };

    ghost invariant = { λ q. IsHeap (λ (x y : Reverse ℕ). nat_cmp y.0 x.0) (heap_items q.heap) };
}

impl Queue {
    /// Takes no memory; later calls of `push` take theirs from `alloc`.
    pub fn new(alloc: Global) -> Queue
        ensures { result ≡ [] }
    {
        Queue {
            heap: BinaryHeap::new(alloc),
        }
    }

    pub fn push(&mut self, place: u32) -> Result<(), OutOfMemory>
        ensures { OnOk result (IsPermutation (place ∷ self.old) self.new) }
    {
        self.heap.push(Reverse(place))?;
        Ok(())
    }

    pub fn pop(&mut self) -> Option<u32>
        ensures least { IfSome result (λ place. All (λ other. place ≤ other) self.new) }
        ensures rest { IfSome result (λ place. IsPermutation self.old (place ∷ self.new)) }
        ensures none { IfNone result (self.old ≡ []) }
    {
        let Reverse(place) = self.heap.pop()?;
        Some(place)
    }
}
