//! Lines with a character for each value.

ghost use Rattle.std.specs.Prelude.{◌≡◌, ◌++◌, ◌∷◌, [], length, IfOk, OnOk};
ghost use Rattle.report_text.specs.Text.{bits_words};
ghost use Rattle.report_lines.specs.Reading.{Gives};
ghost use Rattle.report_sections.specs.Pieces.{Reads, one};
ghost use Rattle.report_sections.specs.Seeds.{bit_of, bits_of, bits_line_of, bits_read, rows_read, GivesRows};

use aig_model::{Bits, Rows};
use ketch_base::OutOfMemory;
use report_lines::{LineWords, ReportFault, TextLines, last};
use std::alloc::Global;

fn value(byte: u8) -> Option<bool>
    ensures { result ≡ bit_of byte }
{
    match byte {
        b'0' => Some(false),
        b'1' => Some(true),
        _ => None,
    }
}

/// The values of the word, where it has so many characters and each is a value.
pub fn bits_in(alloc: Global, word: &[u8], width: u32) -> Result<Option<Bits>, OutOfMemory>
    ensures { IfOk result (λ o. o ≡ bits_of width word.now) }
{
    if word.len() != width as usize {
        return Ok(None);
    }
    let mut bits = Bits::new(alloc);
    let mut rest = word;
    while let [byte, more @ ..] = rest {
        let Some(bit) = value(*byte) else {
            return Ok(None);
        };
        bits.push(bit)?;
        rest = more;
    }
    Ok(Some(bits))
}

fn line_in(alloc: Global, words: LineWords<'_>, width: u32) -> Result<Option<Bits>, OutOfMemory>
    ensures { IfOk result (λ o. o ≡ bits_line_of width words.entry) }
{
    let mut words = words;
    let Some(word) = words.next() else {
        return Ok(None);
    };
    let Some(bits) = bits_in(alloc, word, width)? else {
        return Ok(None);
    };
    Ok(last(bits, words))
}

fn line(alloc: Global, lines: &mut TextLines<'_>, width: u32) -> Result<Bits, ReportFault>
    ensures { Gives result lines.new (bits_read width lines.old) }
{
    let bits = line_in(alloc, lines.words(), width)?;
    lines.settle(bits)
}

/// A line of so many values.
pub fn read_bits(alloc: Global, lines: &mut TextLines<'_>, width: u32) -> Result<Bits, ReportFault>
    ensures gives { Gives result lines.new (bits_read width lines.old) }
    ensures reads { Reads (λ bits. length bits ≡ width) (one bits_words) lines.old result lines.new }
{
    line(alloc, lines, width)
}

/// So many rows of one width.
#[tactic(auto, using(crate::proofs::ItemsRead::item_steps))]
pub(crate) fn read_rows(
    alloc: Global,
    lines: &mut TextLines<'_>,
    width: u32,
    count: u32,
) -> Result<Rows, ReportFault>
    ensures { GivesRows width result lines.new (rows_read width count lines.old) }
{
    let mut rows = Rows::new(alloc, width);
    for _number in 0..count {
        let row = read_bits(alloc, lines, width)?;
        rows.push(&row)?;
    }
    Ok(rows)
}
