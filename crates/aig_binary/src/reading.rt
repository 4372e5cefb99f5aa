//! Reading a circuit in the binary format.

ghost use Rattle.std.specs.Prelude.{◌≡◌, ◌≤◌, ℕ, [], IfOk, IfErr, OnOk, Ok, Err};
ghost use Rattle.aig_model.specs.WellFormed.{limit};
ghost use Rattle.aig_model.specs.declared.parts.Parts.{Parts};
ghost use Rattle.text_words.specs.Text.{all_lines, whole};
ghost use Rattle.aig_ascii.specs.Header.{AreFew};
ghost use Rattle.aig_ascii.specs.Symbols.{symbol_lines, symbol_demands, symbols_of};
ghost use Rattle.aig_ascii.specs.FirstFaults.{first_unmet, Says};
ghost use Rattle.aig_binary.specs.Aig.{layout_from, layout_of, parts_in, line_section_demands, demands, SpellsCircuit, IsFirstFault, IsFault, Answers};
ghost use Rattle.aig_binary.specs.BinaryOrder.{lits_from};
ghost use Rattle.aig_binary.specs.Kinds.{aig_kind};
ghost use Rattle.aig_binary.specs.ReadSections.{IsRestOf, AreLines, behind_header, moved, CanMove};
ghost use Rattle.aig_binary.specs.declared.fault.AigKind.{AigKind};

use crate::bytes::Bytes;
use crate::fault::{AigFault, AigKind};
use crate::gates::read_gates;
use crate::lines::{read_latches, read_lits};
use aig_ascii::{Fault, Format, Sizes, read_header, read_symbols};
use aig_model::{Circuit, Latches, Lit, Lits, Names, Parts};
use ketch_base::OutOfMemory;
use std::alloc::Global;
use text_words::Cursor;

/// What the lines of the sections spell.
#[derive(Drop)]
pub struct Lines {
    pub latches: Latches,
    pub outputs: Lits,
    pub bads: Lits,
    pub constraints: Lits,
}

fn read_lines(alloc: Global, cursor: &mut Cursor<'_>, sizes: Sizes) -> Result<Lines, AigFault>
    requires { AreFew sizes }
    ensures demands { Says result (first_unmet (line_section_demands (layout_from sizes cursor.old))) }
    ensures lines { IfOk result (AreLines (layout_from sizes cursor.old)) }
    ensures next { OnOk result (cursor.new ≡ (layout_from sizes cursor.old).gates) }
{
    let latches = read_latches(alloc, cursor, sizes.top, 1 + sizes.inputs, sizes.latches)?;
    let outputs = read_lits(alloc, cursor, sizes.top, sizes.outputs)?;
    let bads = read_lits(alloc, cursor, sizes.top, sizes.bads)?;
    let constraints = read_lits(alloc, cursor, sizes.top, sizes.constraints)?;
    Ok(Lines {
        latches,
        outputs,
        bads,
        constraints,
    })
}

/// A fault of what stands so far behind the file's beginning, at its place in the file.
fn moved(by: u64, fault: AigFault) -> AigFault
    requires { CanMove by fault }
    ensures { result ≡ moved by fault }
{
    match fault {
        AigFault::At { at, kind } => AigFault::At { at: by + at, kind },
        AigFault::OutOfMemory => AigFault::OutOfMemory,
    }
}

/// The names of what follows the gates.
fn read_names(alloc: Global, bytes: &Bytes<'_>, sizes: Sizes) -> Result<Names, AigFault>
    requires { AreFew sizes }
    ensures demands { Says result (first_unmet (symbol_demands aig_kind sizes [] (symbol_lines (all_lines bytes.now)))) }
    ensures names { IfOk result (λ names. names ≡ symbols_of (symbol_lines (all_lines bytes.now))) }
{
    let mut cursor = Cursor::new(bytes.rest());
    match read_symbols(alloc, &mut cursor, sizes) {
        Ok(names) => Ok(names),
        Err(fault) => Err(moved(bytes.at(), fault)),
    }
}

/// The literals of the first variables.
fn input_lits(alloc: Global, count: u32) -> Result<Lits, OutOfMemory>
    requires { count ≤ limit }
    ensures { IfOk result (λ lits. lits ≡ lits_from 1 count) }
{
    let mut lits = Lits::new(alloc);
    for place in 0..count {
        let lit = Lit::new(2 * (place + 1));
        lits.push(lit)?;
    }
    Ok(lits)
}

/// The parts that a file spells behind its header. The inputs, which take no bytes, come last, so that a file that
/// is at fault takes no memory for them.
fn read_body(
    alloc: Global,
    file: &[u8],
    cursor: &mut Cursor<'_>,
    sizes: Sizes,
) -> Result<Parts, AigFault>
    requires few { AreFew sizes }
    requires rest { IsRestOf file.now cursor.old }
    ensures demands { Says result (first_unmet (behind_header (layout_from sizes cursor.old))) }
    ensures parts { IfOk result (λ parts. parts ≡ parts_in (layout_from sizes cursor.old)) }
{
    let lines = read_lines(alloc, cursor, sizes)?;
    let place = cursor.at();
    let mut bytes = Bytes::new(file, place);
    let first = 1 + sizes.inputs + sizes.latches;
    let gates = read_gates(alloc, &mut bytes, first, sizes.gates)?;
    let names = read_names(alloc, &bytes, sizes)?;
    let inputs = input_lits(alloc, sizes.inputs)?;
    Ok(Parts {
        top: sizes.top,
        inputs,
        latches: lines.latches,
        outputs: lines.outputs,
        bads: lines.bads,
        constraints: lines.constraints,
        gates,
        names,
    })
}

/// The parts that a file spells.
fn read_parts(alloc: Global, file: &[u8]) -> Result<Parts, AigFault>
    ensures demands { Says result (first_unmet (demands file.now)) }
    ensures parts { IfOk result (λ parts. parts ≡ parts_in (layout_of file.now)) }
{
    let mut cursor = Cursor::new(file);
    let sizes = read_header(&mut cursor, Format::Binary)?;
    let parts = read_body(alloc, file, &mut cursor, sizes)?;
    Ok(parts)
}

/// The circuit that the file spells.
pub fn read_aig(alloc: Global, bytes: &[u8]) -> Result<Circuit, AigFault>
    ensures circuit { IfOk result (SpellsCircuit bytes.now) }
    ensures fault { IfErr result (IsFault bytes.now) }

    // Each file that spells a circuit is read, and each first fault is answered.
    ensures every_circuit { (c : Parts) → SpellsCircuit bytes.now c → Answers result (Ok c) }
    ensures every_fault { (at : ℕ) (kind : AigKind) → IsFirstFault bytes.now at kind → Answers result (Err (Fault.At at kind)) }
{
    let parts = read_parts(alloc, bytes)?;
    Ok(Circuit::new(parts))
}
