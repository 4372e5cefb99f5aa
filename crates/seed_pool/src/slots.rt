//! What is left in the cells of a table that ended.

ghost use Rattle.std.specs.Prelude.{◌≡◌, ◌<◌, ◌≤◌, ◌++◌, [], length};
ghost use Rattle.std.specs.Vec.{vec_capacity};
ghost use Rattle.std.specs.Slots.{slots_items, slots_len, IsFull};
ghost use Rattle.seed_pool.specs.Rule.{held, held_then};

use crate::table::CELLS;
use atomic_table::Closed;
use std::alloc::Global;

/// Takes each slot's seed out, in the order of the cells.
pub fn drained<S: Drop>(closed: Closed<Option<S>, Global>, left: Vec<S>) -> Vec<S>
    requires slots { (slots_len closed.slots ≡ 64) × IsFull closed.slots }
    requires room { (left.items ≡ []) × (64 ≤ vec_capacity left) }
    ensures { result.items ≡ held (slots_items closed.slots) }
{
    let mut closed = closed;
    let mut left = left;
    for cell in 0..CELLS {
        keep(&mut left, closed.take(cell));
    }
    closed.free();
    left
}

fn keep<S: Drop>(left: &mut Vec<S>, slot: Option<S>)
    requires { length left.old.items < vec_capacity left.old }
    ensures items { left.new.items ≡ left.old.items ++ held_then slot [] }
    ensures capacity { vec_capacity left.new ≡ vec_capacity left.old }
{
    if let Some(seed) = slot {
        left.push_reserved(seed);
    }
}
