//! Places placed one after another, each as soon as it is the least one that waits for nothing.

ghost use Rattle.std.specs.Prelude.{ℕ, ◌≡◌, ◌+◌, ◌<◌, ◌^◌, [], length, slice_index, OnOk, IfOk};
ghost use Rattle.gate_order.specs.UserLists.{AreWithin};
ghost use Rattle.gate_order.specs.PlaceOrder.{is_user, waits_of, Queues, Releases, IsPlacing};

use crate::order::queue::Queue;
use crate::order::users::Users;
use ketch_base::OutOfMemory;
use std::alloc::Global;

/// Counts down what the users of a placed place wait for, and queues those that wait for nothing more.
fn release(
    users: &Users,
    place: usize,
    waits: &mut [u8],
    queue: &mut Queue,
) -> Result<(), OutOfMemory>
    requires place { place < length users.now }
    requires size { length waits.old ≡ length users.now }
    requires waiting { (user : ℕ) → user < length users.now → slice_index users.now user ≡ place + 1 → 0 < slice_index waits.old user }
    ensures { OnOk result (Releases (is_user users.now place) waits.old queue.old waits.new queue.new) }
{
    let mut last = users.last(place);
    while last > 0 {
        let user = last - 1;
        waits[user as usize] -= 1;
        if waits[user as usize] == 0 {
            queue.push(user)?;
        }
        last = users.earlier(user as usize);
    }
    Ok(())
}

/// The places that wait for nothing from the start.
fn first_ready(alloc: Global, waits: &[u8]) -> Result<Queue, OutOfMemory>
    requires { length waits.now < 2 ^ 32 }
    ensures { IfOk result (λ queue. Queues waits.now (length waits.now) queue) }
{
    let mut queue = Queue::new(alloc);
    for (place, count) in waits.iter().enumerate() {
        if *count == 0 {
            queue.push(place as u32)?;
        }
    }
    Ok(queue)
}

/// Places all that can be placed; `waits` counts for each place the inputs that it waits for.
pub fn place_all(
    alloc: Global,
    left: &Users,
    right: &Users,
    waits: &mut [u8],
) -> Result<Vec<u32>, OutOfMemory>
    requires few { length waits.old < 2 ^ 32 }
    requires left_size { length left.now ≡ length waits.old }
    requires right_size { length right.now ≡ length waits.old }
    requires counts { (place : ℕ) → place < length waits.old → slice_index waits.old place ≡ waits_of left.now right.now [] place }
    ensures { IfOk result (λ placed. IsPlacing left.now right.now waits.new [] placed.items) }
{
    let mut queue = first_ready(alloc, waits)?;
    let mut placed = Vec::with_capacity(alloc, waits.len())?;
    while let Some(place) = queue.pop() {
        placed.push(place)?;
        release(left, place as usize, waits, &mut queue)?;
        release(right, place as usize, waits, &mut queue)?;
    }
    Ok(placed)
}
