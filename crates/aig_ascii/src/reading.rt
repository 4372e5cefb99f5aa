//! Reading a circuit in the ASCII format.

ghost use Rattle.std.specs.Prelude.{◌≡◌, ◌+◌, ◌<◌, ◌++◌, [], ℕ, length, slice_index, Contains, IfOk, IfErr, OnOk, Ok, Err, map};
ghost use Rattle.aig_model.specs.WellFormed.{definers, left_sides, IsSized};
ghost use Rattle.aig_model.specs.declared.parts.Parts.{Parts};
ghost use Rattle.text_words.specs.Text.{all_lines, after_lines, whole};
ghost use Rattle.aig_ascii.specs.Header.{AreFew};
ghost use Rattle.aig_ascii.specs.Sections.{use_demands};
ghost use Rattle.aig_ascii.specs.Symbols.{symbol_lines, symbol_demands};
ghost use Rattle.aig_ascii.specs.Aag.{layout_from, layout_of, parts_in, uses_in, body_demands, demands, SpellsCircuit, IsFirstFault, IsFault, Answers};
ghost use Rattle.gate_order.specs.GateOrder.{IsGateOrder};
ghost use Rattle.gate_order.specs.OrderLaws.{IsUnordered};
ghost use Rattle.gate_order.specs.StandingGates.{StandInOrder};
ghost use Rattle.aig_ascii.specs.ReadSections.{IsSections, behind_header, lines_before, IsGatePlace, IsOrderFault};
ghost use Rattle.aig_ascii.specs.FirstFaults.{first_unmet, Says};
ghost use Rattle.aig_ascii.specs.declared.fault.AagKind.{AagKind};

use crate::draft::Draft;
use crate::fault::{AagFault, AagKind, Fault};
use crate::header::{Format, Sizes, read_header};
use crate::sections::{read_gates, read_inputs, read_latches, read_lits};
use crate::symbols::read_symbols;
use aig_model::{Circuit, Gates, Lit, Lits, Parts};
use gate_order::{OrderFault, order_gates, stand_in_order};
use std::alloc::Global;
use text_words::Cursor;

/// What the lines of the sections spell.
#[derive(Drop)]
pub struct Sections {
    pub draft: Draft,
    pub outputs: Lits,
    pub bads: Lits,
    pub constraints: Lits,
}

fn read_sections(alloc: Global, cursor: &mut Cursor<'_>, sizes: Sizes) -> Result<Sections, AagFault>
    requires { AreFew sizes }
    ensures demands { Says result (first_unmet (body_demands (layout_from sizes cursor.old))) }
    ensures sections { IfOk result (IsSections (layout_from sizes cursor.old)) }
    ensures next { OnOk result (cursor.new ≡ (layout_from sizes cursor.old).symbols) }
{
    let mut draft = Draft::new(alloc, sizes.top);
    read_inputs(cursor, &mut draft, sizes.inputs)?;
    read_latches(cursor, &mut draft, sizes.latches)?;
    let outputs = read_lits(alloc, cursor, &mut draft, sizes.outputs)?;
    let bads = read_lits(alloc, cursor, &mut draft, sizes.bads)?;
    let constraints = read_lits(alloc, cursor, &mut draft, sizes.constraints)?;
    read_gates(cursor, &mut draft, sizes.gates)?;
    Ok(Sections {
        draft,
        outputs,
        bads,
        constraints,
    })
}

/// The parts that the lines behind the header spell, with the gates in the order of the file.
fn read_body(alloc: Global, cursor: &mut Cursor<'_>, sizes: Sizes) -> Result<Parts, AagFault>
    requires { AreFew sizes }
    ensures demands { Says result (first_unmet (behind_header (layout_from sizes cursor.old))) }
    ensures parts { IfOk result (λ parts. parts ≡ parts_in (layout_from sizes cursor.old)) }
{
    let sections = read_sections(alloc, cursor, sizes)?;
    let names = read_symbols(alloc, cursor, sizes)?;
    sections.draft.check_uses()?;
    let parts = sections.draft.into_parts(
        sections.outputs,
        sections.bads,
        sections.constraints,
        names,
    );
    Ok(parts)
}

/// The parts that the text spells, with the gates in the order of the file.
fn read_parts(alloc: Global, bytes: &[u8]) -> Result<Parts, AagFault>
    ensures demands { Says result (first_unmet (demands bytes.now)) }
    ensures parts { IfOk result (λ parts. parts ≡ parts_in (layout_of bytes.now)) }
    ensures few { OnOk result (AreFew (layout_of bytes.now).sizes) }
{
    let mut cursor = Cursor::new(bytes);
    let sizes = read_header(&mut cursor, Format::Ascii)?;
    let parts = read_body(alloc, &mut cursor, sizes)?;
    Ok(parts)
}

/// How many lines stand before the gates.
fn lines_before_gates(parts: &Parts) -> u64
    requires { IsSized parts.now }
    ensures { result ≡ lines_before parts.now }
{
    1 + parts.inputs.len() as u64
        + parts.latches.len() as u64
        + parts.outputs.len() as u64
        + parts.bads.len() as u64
        + parts.constraints.len() as u64
}

/// The place of a line, counted from 0.
fn line_place(bytes: &[u8], lines: u64) -> u64
    ensures { result ≡ (after_lines lines (whole bytes.now)).at }
{
    let mut cursor = Cursor::new(bytes);
    let mut left = lines;
    while left > 0 {
        cursor.next_line();
        left -= 1;
    }
    cursor.at()
}

/// The place of the gate with this left side.
fn gate_place(bytes: &[u8], parts: &Parts, lhs: Lit) -> u64
    requires sized { IsSized parts.now }
    requires exists { Contains (left_sides parts.now.gates) lhs }
    ensures { IsGatePlace bytes.now parts.now lhs result }
{
    let before = lines_before_gates(parts);
    let mut place = 0;
    for gate in parts.gates.as_slice() {
        if gate.lhs == lhs {
            break;
        }
        place += 1;
    }
    line_place(bytes, before + place)
}

/// The circuit of parts whose gates stand in order.
fn standing(parts: Parts) -> Circuit
    requires unordered { IsUnordered parts }
    requires stand { StandInOrder parts.gates }
    ensures { result ≡ parts }
{
    Circuit::new(parts)
}

/// The circuit of parts whose gates have this order.
fn ordered(parts: Parts, gates: Gates) -> Circuit
    requires unordered { IsUnordered parts }
    requires order { IsGateOrder parts.gates gates }
    ensures { result ≡ record parts { gates = gates } }
{
    let mut parts = parts;
    parts.gates = gates;
    Circuit::new(parts)
}

/// The fault of gates that have no order.
fn order_fault(bytes: &[u8], parts: &Parts, fault: OrderFault) -> AagFault
    requires sized { IsSized parts.now }
    requires exists { (lhs : ℕ) → fault ≡ OrderFault.Cycle lhs → Contains (left_sides parts.now.gates) lhs }
    ensures { IsOrderFault bytes.now parts.now fault result }
{
    match fault {
        OrderFault::Cycle { lhs } => {
            let at = gate_place(bytes, parts, lhs);
            AagFault::At {
                at,
                kind: AagKind::Cycle,
            }
        }
        OrderFault::OutOfMemory => AagFault::OutOfMemory,
    }
}

/// The circuit that the text spells, with its gates in order.
pub fn read_aag(alloc: Global, bytes: &[u8]) -> Result<Circuit, AagFault>
    ensures circuit { IfOk result (SpellsCircuit bytes.now) }
    ensures fault { IfErr result (IsFault bytes.now) }

    // Each text that spells a circuit is read, and each first fault is answered.
    ensures every_circuit { (c : Parts) → SpellsCircuit bytes.now c → Answers result (Ok c) }
    ensures every_fault { (at : ℕ) (kind : AagKind) → IsFirstFault bytes.now at kind → Answers result (Err (Fault.At at kind)) }
{
    let parts = read_parts(alloc, bytes)?;
    // Most files have their gates in order, and then none is copied.
    if stand_in_order(parts.gates.as_slice()) {
        return Ok(standing(parts));
    }
    match order_gates(alloc, &parts.gates) {
        Ok(gates) => Ok(ordered(parts, gates)),
        Err(fault) => Err(order_fault(bytes, &parts, fault)),
    }
}
