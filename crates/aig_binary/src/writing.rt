//! Writing a circuit as a binary file.

ghost use Rattle.std.specs.Prelude.{◌≡◌, ◌++◌, ◌≤◌, ℕ, All, OnOk, IfOk, codes};
ghost use Rattle.std.specs.List.{flat_map};
ghost use Rattle.ketch_base.specs.Exactly.{OkExactly, ErrExactly};
ghost use Rattle.aig_binary.specs.BinaryOrder.{IsBinary, IsNotBinary};
ghost use Rattle.aig_binary.specs.CircuitFile.{latch_line, larger_input, gate_bytes, sections_bytes, IsFileOf};
ghost use Rattle.aig_binary.specs.RoundTrip.{ReadsBack};

use crate::delta::push_delta;
use crate::fault::WriteAigFault;
use crate::order::check_order;
use aig_ascii::{push_reset, push_spaced, write_header, write_lits, write_symbols};
use aig_model::{AndGate, Circuit, Latch};
use ketch_base::OutOfMemory;
use std::alloc::Global;
use text_words::push_natural;

fn write_latch(text: &mut Vec<u8>, latch: &Latch) -> Result<(), OutOfMemory>
    ensures { OnOk result (text.new.items ≡ text.old.items ++ latch_line latch.now) }
{
    push_natural(text, u64::from(latch.next.value()))?;
    push_reset(text, latch.lit, latch.reset)?;
    text.push(b'\n')?;
    Ok(())
}

fn write_latches(text: &mut Vec<u8>, latches: &[Latch]) -> Result<(), OutOfMemory>
    ensures { OnOk result (text.new.items ≡ text.old.items ++ flat_map latch_line latches.now) }
{
    for latch in latches {
        write_latch(text, latch)?;
    }
    Ok(())
}

fn write_gate(text: &mut Vec<u8>, gate: &AndGate) -> Result<(), OutOfMemory>
    requires { larger_input gate.now ≤ gate.now.lhs }
    ensures { OnOk result (text.new.items ≡ text.old.items ++ gate_bytes gate.now) }
{
    let left = gate.left.value();
    let right = gate.right.value();
    let larger = left.max(right);
    let smaller = left.min(right);
    push_delta(text, gate.lhs.value() - larger)?;
    push_delta(text, larger - smaller)?;
    Ok(())
}

fn write_gates(text: &mut Vec<u8>, gates: &[AndGate]) -> Result<(), OutOfMemory>
    requires { All (λ gate. larger_input gate ≤ gate.lhs) gates.now }
    ensures { OnOk result (text.new.items ≡ text.old.items ++ flat_map gate_bytes gates.now) }
{
    for gate in gates {
        write_gate(text, gate)?;
    }
    Ok(())
}

fn write_sections(text: &mut Vec<u8>, circuit: &Circuit) -> Result<(), OutOfMemory>
    requires { IsBinary circuit.now }
    ensures { OnOk result (text.new.items ≡ text.old.items ++ sections_bytes circuit.now) }
{
    circuit.is_well_formed();
    let gates = circuit.gates().as_slice();
    write_latches(text, circuit.latches().as_slice())?;
    write_lits(text, circuit.outputs().as_slice())?;
    write_lits(text, circuit.bads().as_slice())?;
    write_lits(text, circuit.constraints().as_slice())?;
    write_gates(text, gates)?;
    Ok(())
}

fn write_file(alloc: Global, circuit: &Circuit) -> Result<Vec<u8>, OutOfMemory>
    requires { IsBinary circuit.now }
    ensures { IfOk result (λ file. IsFileOf circuit.now file.items) }
{
    let mut text = Vec::new(alloc);
    write_header(&mut text, b"aig", circuit)?;
    write_sections(&mut text, circuit)?;
    write_symbols(alloc, &mut text, circuit.names().as_slice())?;
    Ok(text)
}

/// Each gate's larger input comes first, and the names stand by their sections and positions.
pub fn write_aig(alloc: Global, circuit: &Circuit) -> Result<Vec<u8>, WriteAigFault>
    ensures file { IfOk result (λ file. IsFileOf circuit.now file.items) }
    ensures reads_back { IfOk result (λ file. ReadsBack circuit.now file.items) }
    ensures ok { OkExactly WriteAigFault.OutOfMemory result (IsBinary circuit.now) }
    ensures not_binary { (lit : ℕ) → ErrExactly WriteAigFault.OutOfMemory result (WriteAigFault.NotBinary lit) (IsNotBinary circuit.now lit) }
{
    circuit.is_well_formed();
    check_order(circuit)?;
    let file = write_file(alloc, circuit)?;
    Ok(file)
}
