//! The order of gates: again and again the gate with the least left side among those whose gate inputs are all placed.

ghost use Rattle.std.specs.Prelude.{ℕ, ◌≡◌, ◌<◌, ◌≤◌, ◌^◌, All, length, slice_index, IfOk, IfErr, MatchOption};
ghost use Rattle.ketch_base.specs.Exactly.{OkExactly, ErrExactly};
ghost use Rattle.ketch_base.specs.First.{IsFirst};
ghost use Rattle.aig_model.specs.WellFormed.{IsOrdered};
ghost use Rattle.gate_order.specs.GateOrder.{DefineApart, IsGateOrder, IsAcyclic, IsCycle, IsFault};
ghost use Rattle.gate_order.specs.SortedGates.{AreSorted, ArePlaced, gates_at};

mod counting;
pub mod fault;
pub mod laws;
mod placing;
mod queue;
mod sorted;
pub mod standing;
#[cfg(test)]
mod tests;
mod users;

use aig_model::{AndGate, Gates};
use counting::count_waits;
use fault::OrderFault;
use ketch_base::OutOfMemory;
use placing::place_all;
use sorted::{Side, list_uses, sorted_gates};
use standing::{copy_gates, stand_in_order};
use std::alloc::Global;
use users::Users;

/// Places that are placed, in their order, and for each place what it still waits for.
#[derive(Drop)]
struct Placed {
    places: Vec<u32>,
    waits: Vec<u8>,
}

fn place_gates(alloc: Global, sorted: &[AndGate]) -> Result<Placed, OutOfMemory>
    requires sorted { AreSorted sorted.now }
    requires few { length sorted.now ≤ 2 ^ 31 }
    ensures { IfOk result (λ placed. ArePlaced sorted.now placed.places.items placed.waits.items) }
{
    let left = list_uses(alloc, sorted, Side::Left)?;
    let right = list_uses(alloc, sorted, Side::Right)?;
    let mut waits = count_waits(alloc, left.as_slice(), right.as_slice())?;
    let left_users = Users::new(alloc, &left)?;
    let right_users = Users::new(alloc, &right)?;
    let places = place_all(alloc, &left_users, &right_users, &mut waits)?;
    Ok(Placed { places, waits })
}

/// The gates at these places, one after another.
fn list_gates(alloc: Global, gates: &[AndGate], places: &[u32]) -> Result<Gates, OutOfMemory>
    requires { All (λ place. place < length gates.now) places.now }
    ensures { IfOk result (λ listed. listed ≡ gates_at gates.now places.now) }
{
    let mut listed = Vec::with_capacity(alloc, places.len())?;
    for place in places {
        listed.push(gates[*place as usize])?;
    }
    Ok(Gates::from_vec(listed))
}

/// The first place that still waits.
fn first_waiting(waits: &[u8]) -> Option<usize>
    ensures { MatchOption result (All (λ count. count ≡ 0) waits.now) (IsFirst (λ place. (place < length waits.now) × (0 < slice_index waits.now place))) }
{
    waits.iter().position(|count| *count != 0)
}

fn order_sorted(alloc: Global, sorted: &[AndGate]) -> Result<Gates, OrderFault>
    requires sorted { AreSorted sorted.now }
    requires few { length sorted.now ≤ 2 ^ 31 }
    ensures order { IfOk result (IsGateOrder sorted.now) }
    ensures cycle { IfErr result (IsFault sorted.now) }
{
    let placed = place_gates(alloc, sorted)?;
    match first_waiting(placed.waits.as_slice()) {
        None => {
            let ordered = list_gates(alloc, sorted, placed.places.as_slice())?;
            Ok(ordered)
        }
        Some(place) => Err(OrderFault::Cycle {
            lhs: sorted[place].lhs,
        }),
    }
}

fn order_unsorted(alloc: Global, gates: &[AndGate]) -> Result<Gates, OrderFault>
    requires { DefineApart gates.now }
    ensures order { IfOk result (IsGateOrder gates.now) }
    ensures cycle { IfErr result (IsFault gates.now) }
{
    let sorted = sorted_gates(alloc, gates)?;
    order_sorted(alloc, sorted.as_slice())
}

/// Most files have their gates in order, and then nothing is sorted.
fn order_or_fault(alloc: Global, gates: &[AndGate]) -> Result<Gates, OrderFault>
    requires { DefineApart gates.now }
    ensures order { IfOk result (IsGateOrder gates.now) }
    ensures cycle { IfErr result (IsFault gates.now) }
{
    if !stand_in_order(gates) {
        return order_unsorted(alloc, gates);
    }
    let copied = copy_gates(alloc, gates)?;
    Ok(copied)
}

/// Takes memory in proportion to the number of gates.
pub fn order_gates(alloc: Global, gates: &Gates) -> Result<Gates, OrderFault>
    requires { DefineApart gates.now }
    ensures order { IfOk result (IsGateOrder gates.now) }
    ensures ordered { IfOk result IsOrdered }
    ensures ok { OkExactly OrderFault.OutOfMemory result (IsAcyclic gates.now) }
    ensures cycle { (lhs : ℕ) → ErrExactly OrderFault.OutOfMemory result (OrderFault.Cycle lhs) (IsCycle gates.now lhs) }
{
    order_or_fault(alloc, gates.as_slice())
}
