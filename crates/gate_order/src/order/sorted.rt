//! Gates by their variables, and the places of the gates that they use.

ghost use Rattle.std.specs.Prelude.{◌≡◌, ◌<◌, ◌≤◌, ◌-◌, ◌^◌, [], length, IfOk, MatchOption};
ghost use Rattle.std.specs.List.Sorted.{IsPermutation};
ghost use Rattle.aig_model.specs.Literal.{var};
ghost use Rattle.gate_order.specs.GateOrder.{DefineApart};
ghost use Rattle.gate_order.specs.SortedGates.{AreSorted, DefinedAt, IsNowhere, IsUseOf, AreUses, input, gate_at};

use aig_model::{AndGate, Lit};
use ketch_base::OutOfMemory;
use std::alloc::Global;

/// One of the two inputs of a gate.
#[derive(Clone, Copy, Debug, PartialEq, Eq)]
pub enum Side {
    Left,
    Right,
}

impl Side {
    fn input(self, gate: &AndGate) -> Lit
        ensures { result ≡ input self gate.now }
    {
        match self {
            Side::Left => gate.left,
            Side::Right => gate.right,
        }
    }
}

fn last_side(gates: &[AndGate]) -> Option<u32>
    ensures { MatchOption result (gates.now ≡ []) (λ side. (side < 2 ^ 32) × (side ≡ (gate_at gates.now (length gates.now - 1)).lhs)) }
{
    match gates.last() {
        None => None,
        Some(gate) => Some(gate.lhs.value()),
    }
}

/// The gates in the order of their variables.
pub fn sorted_gates(alloc: Global, gates: &[AndGate]) -> Result<Vec<AndGate>, OutOfMemory>
    requires { DefineApart gates.now }
    ensures same { IfOk result (λ sorted. IsPermutation gates.now sorted.items) }
    ensures sorted { IfOk result (λ sorted. AreSorted sorted.items) }
    ensures few { IfOk result (λ sorted. length sorted.items ≤ 2 ^ 31) }
{
    let mut sorted = Vec::from_slice(alloc, gates)?;
    sorted.sort_unstable_by_key(|gate| gate.lhs.value());
    // No more than 2^31 left sides differ, since they are even and the last one is a u32.
    let _last = last_side(sorted.as_slice());
    Ok(sorted)
}

/// The place of the gate that defines the literal's variable.
fn place_of(sorted: &[AndGate], lit: Lit) -> Option<usize>
    requires { AreSorted sorted.now }
    ensures { MatchOption result (IsNowhere sorted.now (var lit)) (DefinedAt sorted.now (var lit)) }
{
    sorted
        .binary_search_by_key(&lit.var(), |gate| gate.lhs.var())
        .ok()
}

/// The place of the gate that defines the literal's variable, counted from 1; 0 where none does.
fn use_of(sorted: &[AndGate], lit: Lit) -> u32
    requires sorted { AreSorted sorted.now }
    requires few { length sorted.now ≤ 2 ^ 31 }
    ensures { IsUseOf sorted.now (var lit) result }
{
    match place_of(sorted, lit) {
        None => 0,
        Some(place) => place as u32 + 1,
    }
}

/// For each gate the place of the gate that it uses on this side, counted from 1; 0 for an input that is no gate.
pub fn list_uses(alloc: Global, sorted: &[AndGate], side: Side) -> Result<Vec<u32>, OutOfMemory>
    requires sorted { AreSorted sorted.now }
    requires few { length sorted.now ≤ 2 ^ 31 }
    ensures { IfOk result (λ uses. AreUses side sorted.now (length sorted.now) uses.items) }
{
    let mut uses = Vec::with_capacity(alloc, sorted.len())?;
    for gate in sorted {
        uses.push(use_of(sorted, side.input(gate)))?;
    }
    Ok(uses)
}
