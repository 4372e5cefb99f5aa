//! Gates that stand in their order already.

ghost use Rattle.std.specs.Prelude.{◌≡◌, ◌<◌, ◌↔◌, IsTrue, IfOk};
ghost use Rattle.aig_model.specs.Literal.{var};
ghost use Rattle.gate_order.specs.StandingGates.{IsAboveInputs, StandInOrder};

use aig_model::{AndGate, Gates};
use ketch_base::OutOfMemory;
use std::alloc::Global;

/// Whether the gate's variable is above the one before it, and above those of the gate's inputs.
fn is_above(last: u32, gate: &AndGate) -> bool
    ensures { IsTrue result ↔ ((last < var gate.now.lhs) × IsAboveInputs gate.now) }
{
    let var = gate.lhs.var();
    last < var && gate.left.var() < var && gate.right.var() < var
}

/// Looks at each gate once, and takes no memory.
pub fn stand_in_order(gates: &[AndGate]) -> bool
    ensures { IsTrue result ↔ StandInOrder gates.now }
{
    // No gate is above its inputs with variable 0, so 0 can stand for none before the first.
    let mut last = 0;
    for gate in gates {
        if !is_above(last, gate) {
            return false;
        }
        last = gate.lhs.var();
    }
    true
}

pub fn copy_gates(alloc: Global, gates: &[AndGate]) -> Result<Gates, OutOfMemory>
    ensures { IfOk result (λ copied. copied ≡ gates.now) }
{
    let copied = Vec::from_slice(alloc, gates)?;
    Ok(Gates::from_vec(copied))
}
