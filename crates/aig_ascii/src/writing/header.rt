//! The header of a text.

ghost use Rattle.std.specs.Prelude.{◌≡◌, ◌++◌, length, OnOk};
ghost use Rattle.aig_model.specs.WellFormed.{IsCircuit};
ghost use Rattle.aig_ascii.specs.CircuitText.{spaced, line_text, last_sizes, header_numbers};

use crate::writing::lines::push_spaced;
use aig_model::Circuit;
use ketch_base::OutOfMemory;

fn push_sizes(text: &mut Vec<u8>, sizes: &[u64]) -> Result<(), OutOfMemory>
    ensures { OnOk result (text.new.items ≡ text.old.items ++ spaced sizes.now) }
{
    for size in sizes {
        push_spaced(text, *size)?;
    }
    Ok(())
}

fn push_last_sizes(text: &mut Vec<u8>, bads: usize, constraints: usize) -> Result<(), OutOfMemory>
    ensures { OnOk result (text.new.items ≡ text.old.items ++ spaced (last_sizes bads constraints)) }
{
    if constraints != 0 {
        push_spaced(text, bads as u64)?;
        push_spaced(text, constraints as u64)?;
    } else if bads != 0 {
        push_spaced(text, bads as u64)?;
    }
    Ok(())
}

/// A magic word, and the sizes of the sections without the zeros behind the number of gates.
pub fn write_header(text: &mut Vec<u8>, magic: &[u8], circuit: &Circuit) -> Result<(), OutOfMemory>
    ensures text { OnOk result (text.new.items ≡ text.old.items ++ line_text magic.now (header_numbers circuit.now)) }
    ensures well_formed { IsCircuit circuit.now }
{
    let sizes = [
        u64::from(circuit.top()),
        circuit.inputs().len() as u64,
        circuit.latches().len() as u64,
        circuit.outputs().len() as u64,
        circuit.gates().len() as u64,
    ];
    text.extend_from_slice(magic)?;
    push_sizes(text, &sizes)?;
    push_last_sizes(text, circuit.bads().len(), circuit.constraints().len())?;
    text.push(b'\n')?;
    Ok(())
}
