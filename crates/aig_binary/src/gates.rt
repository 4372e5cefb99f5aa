//! The gates of a file: two deltas each.

ghost use Rattle.std.specs.Prelude.{◌≡◌, ◌+◌, ◌^◌, ◌≤◌, ◌<◌, OnOk, IfOk};
ghost use Rattle.aig_ascii.specs.FirstFaults.{first_unmet, Says};
ghost use Rattle.aig_binary.specs.Sections.{gate_demands, gate_at, behind_gate, gates_demands, gates_at, behind_gates};

use crate::bytes::Bytes;
use crate::fault::AigFault;
use aig_model::{AndGate, Gates, Lit};
use std::alloc::Global;

fn read_gate(bytes: &mut Bytes<'_>, lhs: Lit) -> Result<AndGate, AigFault>
    ensures demands { Says result (first_unmet (gate_demands lhs bytes.old)) }
    ensures gate { IfOk result (λ gate. gate ≡ gate_at lhs bytes.old) }
    ensures next { OnOk result (bytes.new ≡ behind_gate bytes.old) }
{
    let side = lhs.value();
    let first = bytes.delta(1, side)?;
    let left = side - first;
    let second = bytes.delta(0, left)?;
    let right = left - second;
    Ok(AndGate {
        lhs,
        left: Lit::new(left),
        right: Lit::new(right),
    })
}

/// The gates from the one with this variable on.
pub fn read_gates(
    alloc: Global,
    bytes: &mut Bytes<'_>,
    first: u32,
    count: u32,
) -> Result<Gates, AigFault>
    requires { first + count ≤ 2 ^ 30 }
    ensures demands { Says result (first_unmet (gates_demands first count bytes.old)) }
    ensures gates { IfOk result (λ gates. gates ≡ gates_at first count bytes.old) }
    ensures next { OnOk result (bytes.new ≡ behind_gates count bytes.old) }
{
    let mut gates = Gates::new(alloc);
    for var in first..first + count {
        let lhs = Lit::new(2 * var);
        let gate = read_gate(bytes, lhs)?;
        gates.push(gate)?;
    }
    Ok(gates)
}
