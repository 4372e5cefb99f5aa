//! The lines of the sections, and numbers on them.

ghost use Rattle.std.specs.Prelude.{◌≡◌, ◌++◌, ◌∷◌, OnOk};
ghost use Rattle.std.specs.Fmt.{decimal};
ghost use Rattle.std.specs.List.{flat_map};
ghost use Rattle.aig_ascii.specs.CircuitText.{lit_text, latch_text, gate_text, reset_numbers, spaced, sections_text};

use aig_model::{AndGate, Circuit, Latch, Lit, Reset};
use ketch_base::OutOfMemory;
use text_words::push_natural;

/// A number behind a space.
pub fn push_spaced(text: &mut Vec<u8>, value: u64) -> Result<(), OutOfMemory>
    ensures { OnOk result (text.new.items ≡ text.old.items ++ 32 ∷ decimal value) }
{
    text.push(b' ')?;
    push_natural(text, value)?;
    Ok(())
}

pub fn write_lit(text: &mut Vec<u8>, lit: Lit) -> Result<(), OutOfMemory>
    ensures { OnOk result (text.new.items ≡ text.old.items ++ lit_text lit) }
{
    push_natural(text, u64::from(lit.value()))?;
    text.push(b'\n')?;
    Ok(())
}

pub fn write_lits(text: &mut Vec<u8>, lits: &[Lit]) -> Result<(), OutOfMemory>
    ensures { OnOk result (text.new.items ≡ text.old.items ++ flat_map lit_text lits.now) }
{
    for lit in lits {
        write_lit(text, *lit)?;
    }
    Ok(())
}

pub fn push_reset(text: &mut Vec<u8>, lit: Lit, reset: Reset) -> Result<(), OutOfMemory>
    ensures { OnOk result (text.new.items ≡ text.old.items ++ spaced (reset_numbers lit reset)) }
{
    match reset {
        Reset::Zero => Ok(()),
        Reset::One => push_spaced(text, 1),
        Reset::Free => push_spaced(text, u64::from(lit.value())),
    }
}

fn write_latch(text: &mut Vec<u8>, latch: &Latch) -> Result<(), OutOfMemory>
    ensures { OnOk result (text.new.items ≡ text.old.items ++ latch_text latch.now) }
{
    push_natural(text, u64::from(latch.lit.value()))?;
    push_spaced(text, u64::from(latch.next.value()))?;
    push_reset(text, latch.lit, latch.reset)?;
    text.push(b'\n')?;
    Ok(())
}

fn write_latches(text: &mut Vec<u8>, latches: &[Latch]) -> Result<(), OutOfMemory>
    ensures { OnOk result (text.new.items ≡ text.old.items ++ flat_map latch_text latches.now) }
{
    for latch in latches {
        write_latch(text, latch)?;
    }
    Ok(())
}

fn write_gate(text: &mut Vec<u8>, gate: &AndGate) -> Result<(), OutOfMemory>
    ensures { OnOk result (text.new.items ≡ text.old.items ++ gate_text gate.now) }
{
    push_natural(text, u64::from(gate.lhs.value()))?;
    push_spaced(text, u64::from(gate.left.value()))?;
    push_spaced(text, u64::from(gate.right.value()))?;
    text.push(b'\n')?;
    Ok(())
}

fn write_gates(text: &mut Vec<u8>, gates: &[AndGate]) -> Result<(), OutOfMemory>
    ensures { OnOk result (text.new.items ≡ text.old.items ++ flat_map gate_text gates.now) }
{
    for gate in gates {
        write_gate(text, gate)?;
    }
    Ok(())
}

/// A line for each item of the sections.
pub fn write_sections(text: &mut Vec<u8>, circuit: &Circuit) -> Result<(), OutOfMemory>
    ensures { OnOk result (text.new.items ≡ text.old.items ++ sections_text circuit.now) }
{
    write_lits(text, circuit.inputs().as_slice())?;
    write_latches(text, circuit.latches().as_slice())?;
    write_lits(text, circuit.outputs().as_slice())?;
    write_lits(text, circuit.bads().as_slice())?;
    write_lits(text, circuit.constraints().as_slice())?;
    write_gates(text, circuit.gates().as_slice())?;
    Ok(())
}
