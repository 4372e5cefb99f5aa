//! Places that wait to be resolved, the greatest first.

ghost use Rattle.std.specs.Prelude.{◌≡◌, [], ◌∷◌, ◌≤◌, All, IsPermutation, IfNone, IfSome, OnOk};

use ketch_base::OutOfMemory;
use std::alloc::Global;
use std::collections::BinaryHeap;
use std::marker::Model;

/// Contracts see the places in any order.
#[derive(Drop)]
pub struct RootQueue {
    places: BinaryHeap<u32>,
}

impl Model for RootQueue {
    ghost use Rattle.std.specs.Prelude.{ℕ, List};
    ghost use Rattle.std.specs.Ordering.{nat_cmp};
    ghost use Rattle.std.specs.BinaryHeap.{IsHeap, heap_items};

    ghost Value = { List ℕ };

    ghost view = { λ q. heap_items q.places };

    ghost invariant = { λ q. IsHeap nat_cmp (heap_items q.places) };
}

impl RootQueue {
    pub fn new(alloc: Global) -> RootQueue
        ensures { result ≡ [] }
    {
        RootQueue {
            places: BinaryHeap::new(alloc),
        }
    }

    pub fn push(&mut self, place: u32) -> Result<(), OutOfMemory>
        ensures { OnOk result (IsPermutation (place ∷ self.old) self.new) }
    {
        self.places.push(place)?;
        Ok(())
    }

    /// Takes off the greatest place.
    pub fn pop(&mut self) -> Option<u32>
        ensures none { IfNone result (self.old ≡ []) }
        ensures taken { IfSome result (λ place. IsPermutation self.old (place ∷ self.new)) }
        ensures greatest { IfSome result (λ place. All (λ other. other ≤ place) self.new) }
    {
        self.places.pop()
    }
}
