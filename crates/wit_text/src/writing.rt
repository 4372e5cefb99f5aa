//! Writing a witness.

ghost use Rattle.std.specs.Prelude.{◌≡◌, ◌<◌, ◌++◌, ◌∷◌, [], length, slice_index_or, All, OnOk, IfOk};
ghost use Rattle.wit_text.specs.WitnessText.{digit, bits_line, line_text, witness_text, SpellsWitness};

use aig_model::{Bits, Rows, Trace};
use ketch_base::OutOfMemory;
use std::alloc::Global;
use text_words::push_natural;

fn push_bit(out: &mut Vec<u8>, bit: bool) -> Result<(), OutOfMemory>
    ensures { OnOk result (out.new.items ≡ out.old.items ++ digit bit ∷ []) }
{
    out.push(if bit { b'1' } else { b'0' })?;
    Ok(())
}

fn push_bits(out: &mut Vec<u8>, bits: &Bits) -> Result<(), OutOfMemory>
    ensures { OnOk result (out.new.items ≡ out.old.items ++ line_text (bits_line bits.now)) }
{
    for place in 0..bits.len() {
        push_bit(out, bits.get(place))?;
    }
    out.push(b'\n')?;
    Ok(())
}

fn push_row(out: &mut Vec<u8>, rows: &Rows, row: usize) -> Result<(), OutOfMemory>
    requires within { row < length rows.now.rows }
    requires wide { length (slice_index_or rows.now.rows row []) ≡ rows.now.width }
    ensures { OnOk result (out.new.items ≡ out.old.items ++ line_text (bits_line (slice_index_or rows.now.rows row []))) }
{
    for column in 0..rows.width() {
        push_bit(out, rows.bit(row, column))?;
    }
    out.push(b'\n')?;
    Ok(())
}

/// Puts the lines of a witness at the end. Where it finds no memory, a part of them may stand there.
pub fn push_witness(out: &mut Vec<u8>, property: u64, trace: &Trace) -> Result<(), OutOfMemory>
    ensures { OnOk result (out.new.items ≡ out.old.items ++ witness_text property trace.now) }
{
    out.extend_from_slice(b"1\nb")?;
    push_natural(out, property)?;
    out.push(b'\n')?;
    push_bits(out, &trace.start)?;
    for row in 0..trace.rows.len() {
        push_row(out, &trace.rows, row)?;
    }
    out.extend_from_slice(b".\n")?;
    Ok(())
}

/// The text of a witness. One without steps has a text too, which the reader refuses.
pub fn write_witness(alloc: Global, trace: &Trace, property: u32) -> Result<Vec<u8>, OutOfMemory>
    ensures text { IfOk result (λ text. text.items ≡ witness_text property trace.now) }
    ensures reads_back { 0 < length trace.now.rows.rows → IfOk result (λ text. SpellsWitness (length trace.now.start)
        trace.now.rows.width text.items (record { property = property; trace = trace.now })) }
{
    trace.rows.is_well_formed();
    let mut text = Vec::new(alloc);
    push_witness(&mut text, property.into(), trace)?;
    Ok(text)
}
