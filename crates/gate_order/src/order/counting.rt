//! How many gates each gate waits for.

ghost use Rattle.std.specs.Prelude.{ℕ, ◌≡◌, ◌<◌, [], length, slice_index, EachIndex, IfOk};
ghost use Rattle.gate_order.specs.PlaceOrder.{waits_of};

use ketch_base::OutOfMemory;
use std::alloc::Global;

/// For each place the number of its inputs that are gates.
pub fn count_waits(alloc: Global, left: &[u32], right: &[u32]) -> Result<Vec<u8>, OutOfMemory>
    requires { length left.now ≡ length right.now }
    ensures size { IfOk result (λ waits. length waits.items ≡ length left.now) }
    ensures counts { IfOk result (λ waits. (place : ℕ) → place < length left.now → slice_index waits.items place ≡ waits_of left.now right.now [] place) }
{
    let mut waits = Vec::with_capacity(alloc, left.len())?;
    for place in 0..left.len() {
        waits.push(u8::from(left[place] != 0) + u8::from(right[place] != 0))?;
    }
    Ok(waits)
}
