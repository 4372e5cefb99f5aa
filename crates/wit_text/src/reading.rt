//! Reading a witness.

ghost use Rattle.std.specs.Prelude.{◌≡◌, ◌≢◌, ℕ, [], OnOk, IfOk, IfErr, Ok, Err};
ghost use Rattle.text_words.specs.Text.{line_bytes, next_line};
ghost use Rattle.wit_text.specs.Reading.{status_of, property_of, bits_of, there, end, first_line, rows_after, rows_in, reading};
ghost use Rattle.wit_text.specs.WitnessText.{SpellsWitness, IsFirstFault, IsFault, Answers};
ghost use Rattle.wit_text.specs.declared.fault.WitKind.{WitKind};
ghost use Rattle.wit_text.specs.declared.witness.Witness.{Witness};

use crate::fault::{WitFault, WitKind};
use crate::lines::{bits, is_end, is_status, property};
use crate::witness::Witness;
use aig_model::{Bits, Rows, Trace};
use std::alloc::Global;
use text_words::Cursor;

fn fault_here(cursor: &Cursor<'_>, kind: WitKind) -> WitFault
    ensures { result ≡ WitFault.At cursor.now.at kind }
{
    WitFault::At {
        at: cursor.at(),
        kind,
    }
}

/// The line that begins here, or that the text ends here.
fn line_here<'a>(cursor: &Cursor<'a>) -> Result<&'a [u8], WitFault>
    ensures line { IfOk result (λ line. line.now ≡ line_bytes cursor.now.bytes) }
    ensures some { OnOk result (cursor.now.bytes ≢ []) }
    ensures missing { IfErr result (λ fault. (cursor.now.bytes ≡ []) × (fault ≡ WitFault.At cursor.now.at WitKind.Truncated)) }
{
    if cursor.is_done() {
        return Err(fault_here(cursor, WitKind::Truncated));
    }
    Ok(cursor.line())
}

fn read_status(cursor: &mut Cursor<'_>) -> Result<(), WitFault>
    ensures line { result ≡ first_line (end cursor.old) WitKind.Status status_of (there cursor.old) }
    ensures next { OnOk result (cursor.new ≡ next_line cursor.old) }
{
    let line = line_here(cursor)?;
    if !is_status(line) {
        return Err(fault_here(cursor, WitKind::Status));
    }
    cursor.next_line();
    Ok(())
}

fn read_property(cursor: &mut Cursor<'_>) -> Result<u32, WitFault>
    ensures line { result ≡ first_line (end cursor.old) WitKind.Property property_of (there cursor.old) }
    ensures next { OnOk result (cursor.new ≡ next_line cursor.old) }
{
    let line = line_here(cursor)?;
    let Some(property) = property(line) else {
        return Err(fault_here(cursor, WitKind::Property));
    };
    cursor.next_line();
    Ok(property)
}

fn read_bits(alloc: Global, cursor: &mut Cursor<'_>, width: u32) -> Result<Bits, WitFault>
    ensures line { Answers result (first_line (end cursor.old) WitKind.Length (bits_of width) (there cursor.old)) }
    ensures next { OnOk result (cursor.new ≡ next_line cursor.old) }
{
    let line = line_here(cursor)?;
    let Some(bits) = bits(alloc, line, width)? else {
        return Err(fault_here(cursor, WitKind::Length));
    };
    cursor.next_line();
    Ok(bits)
}

/// The inputs of each step, up to the line `.`.
fn read_rows(alloc: Global, cursor: &mut Cursor<'_>, inputs: u32) -> Result<Rows, WitFault>
    ensures rows { Answers (rows_in result) (rows_after (end cursor.old) inputs [] (there cursor.old)) }
    ensures width { IfOk result (λ rows. rows.width ≡ inputs) }
{
    let mut rows = Rows::new(alloc, inputs);
    'steps: while !is_end(cursor.line()) {
        let row = read_bits(alloc, cursor, inputs)?;
        rows.push(&row)?;
    }
    if rows.len() == 0 {
        return Err(fault_here(cursor, WitKind::NoRows));
    }
    Ok(rows)
}

/// The witness that the lines from here on spell.
fn read_lines(
    alloc: Global,
    cursor: &mut Cursor<'_>,
    latches: u32,
    inputs: u32,
) -> Result<Witness, WitFault>
    ensures { Answers result (reading latches inputs (end cursor.old) (there cursor.old)) }
{
    read_status(cursor)?;
    let property = read_property(cursor)?;
    let start = read_bits(alloc, cursor, latches)?;
    let rows = read_rows(alloc, cursor, inputs)?;
    Ok(Witness {
        property,
        trace: Trace { start, rows },
    })
}

/// The witness that the text spells, for a circuit with so many latches and inputs.
pub fn read_witness(
    alloc: Global,
    bytes: &[u8],
    latches: u32,
    inputs: u32,
) -> Result<Witness, WitFault>
    ensures witness { IfOk result (SpellsWitness latches inputs bytes.now) }
    ensures fault { IfErr result (IsFault latches inputs bytes.now) }

    // Each text that spells a witness is read, and each first fault is answered.
    ensures every_witness { (w : Witness) → SpellsWitness latches inputs bytes.now w → Answers result (Ok w) }
    ensures every_fault { (at : ℕ) (kind : WitKind) → IsFirstFault latches inputs bytes.now at kind
        → Answers result (Err (WitFault.At at kind)) }
{
    let mut cursor = Cursor::new(bytes);
    read_lines(alloc, &mut cursor, latches, inputs)
}
