//! Whether a circuit's variables stand in the order of a binary file.

ghost use Rattle.std.specs.Prelude.{◌≡◌, ◌↔◌, ◌+◌, ◌*◌, ◌^◌, ◌<◌, length, IsTrue, MatchOption, OnOk, IfErr};
ghost use Rattle.aig_model.specs.WellFormed.{definers, latch_lits, left_sides};
ghost use Rattle.aig_binary.specs.BinaryOrder.{lits_from, AreInPlace, IsBinary, IsMisplaced};
ghost use Rattle.aig_binary.specs.Refusals.{IsRefusal};

use crate::fault::WriteAigFault;
use aig_model::{AndGate, Circuit, Latch, Lit};

fn is_lit_of(lit: Lit, var: u64) -> bool
    requires { var < 2 ^ 40 }
    ensures { IsTrue result ↔ (lit ≡ 2 * var) }
{
    u64::from(lit.value()) == 2 * var
}

/// The first input that isn't the next literal, from this variable on.
fn misplaced_input(first: u64, inputs: &[Lit]) -> Option<Lit>
    requires { first + length inputs.now < 2 ^ 40 }
    ensures { MatchOption result (AreInPlace first inputs.now) (IsMisplaced first inputs.now) }
{
    for (place, input) in inputs.iter().enumerate() {
        if !is_lit_of(*input, first + place as u64) {
            return Some(*input);
        }
    }
    None
}

/// The same of latches.
fn misplaced_latch(first: u64, latches: &[Latch]) -> Option<Lit>
    requires { first + length latches.now < 2 ^ 40 }
    ensures { MatchOption result (AreInPlace first (latch_lits latches.now)) (IsMisplaced first (latch_lits latches.now)) }
{
    for (place, latch) in latches.iter().enumerate() {
        if !is_lit_of(latch.lit, first + place as u64) {
            return Some(latch.lit);
        }
    }
    None
}

/// The same of left sides.
fn misplaced_gate(first: u64, gates: &[AndGate]) -> Option<Lit>
    requires { first + length gates.now < 2 ^ 40 }
    ensures { MatchOption result (AreInPlace first (left_sides gates.now)) (IsMisplaced first (left_sides gates.now)) }
{
    for (place, gate) in gates.iter().enumerate() {
        if !is_lit_of(gate.lhs, first + place as u64) {
            return Some(gate.lhs);
        }
    }
    None
}

/// The first literal that defines a variable and is out of place.
fn misplaced(circuit: &Circuit) -> Option<Lit>
    ensures { MatchOption result (AreInPlace 1 (definers circuit.now)) (IsMisplaced 1 (definers circuit.now)) }
{
    circuit.is_well_formed();
    let inputs = circuit.inputs().as_slice();
    let latches = circuit.latches().as_slice();
    if let Some(lit) = misplaced_input(1, inputs) {
        return Some(lit);
    }
    let first = 1 + inputs.len() as u64;
    if let Some(lit) = misplaced_latch(first, latches) {
        return Some(lit);
    }
    misplaced_gate(first + latches.len() as u64, circuit.gates().as_slice())
}

/// The greatest variable of a circuit without a variable that nothing defines.
fn defined_count(circuit: &Circuit) -> u64
    ensures { result ≡ length (definers circuit.now) }
{
    circuit.is_well_formed();
    circuit.inputs().len() as u64 + circuit.latches().len() as u64 + circuit.gates().len() as u64
}

/// Refuses a circuit that isn't in this order.
pub fn check_order(circuit: &Circuit) -> Result<(), WriteAigFault>
    ensures ok { OnOk result (IsBinary circuit.now) }
    ensures err { IfErr result (IsRefusal circuit.now) }
{
    if let Some(lit) = misplaced(circuit) {
        return Err(WriteAigFault::NotBinary { lit: lit.value() });
    }
    if u64::from(circuit.top()) != defined_count(circuit) {
        return Err(WriteAigFault::NotBinary { lit: 0 });
    }
    Ok(())
}
