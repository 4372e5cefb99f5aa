//! Witnesses in a report.

ghost use Rattle.std.specs.Prelude.{◌≡◌, length, IfOk, IfSome};
ghost use Rattle.report_lines.specs.Reading.{Gives, line_read};
ghost use Rattle.report_sections.specs.Seeds.{bits_read, GivesRows};
ghost use Rattle.report_blocks.specs.Witness.{status_of, property_of, row_word, row_of, rows_read, trace_read};

use aig_model::{Bits, Rows, Trace};
use ketch_base::OutOfMemory;
use report_lines::{LineWords, ReportFault, TextLines, last, small, take_small};
use report_sections::{Size, behind_front, bits_in, read_bits};
use std::alloc::Global;

/// The status of a trace that reaches its goal, which is 1.
fn status_in(words: LineWords<'_>) -> Option<u32>
    ensures { result ≡ status_of words.entry }
{
    let mut words = words;
    let status = take_small(&mut words)?;
    if status != 1 {
        return None;
    }
    last(status, words)
}

/// The goal, behind a `b`.
fn property_in(words: LineWords<'_>, goal: u32) -> Option<u32>
    ensures { result ≡ property_of goal words.entry }
{
    let mut words = words;
    let property = small(behind_front(b"b", words.next()?)?)?;
    if property != goal {
        return None;
    }
    last(property, words)
}

fn status_line(lines: &mut TextLines<'_>) -> Result<u32, ReportFault>
    ensures { Gives result lines.new (line_read status_of lines.old) }
{
    let status = status_in(lines.words());
    lines.settle(status)
}

fn property_line(lines: &mut TextLines<'_>, goal: u32) -> Result<u32, ReportFault>
    ensures { Gives result lines.new (line_read (property_of goal) lines.old) }
{
    let property = property_in(lines.words(), goal);
    lines.settle(property)
}

/// A row, or none where the word ends the rows.
fn row_of_word(alloc: Global, word: &[u8], width: u32) -> Result<Option<Option<Bits>>, OutOfMemory>
    ensures told { IfOk result (λ o. o ≡ row_word width word.now) }
    ensures wide { IfOk result (λ o. IfSome o (λ row. IfSome row (λ bits. length bits ≡ width))) }
{
    if word == b".".as_slice() {
        return Ok(Some(None));
    }
    let Some(bits) = bits_in(alloc, word, width)? else {
        return Ok(None);
    };
    Ok(Some(Some(bits)))
}

fn row_in(
    alloc: Global,
    words: LineWords<'_>,
    width: u32,
) -> Result<Option<Option<Bits>>, OutOfMemory>
    ensures told { IfOk result (λ o. o ≡ row_of width words.entry) }
    ensures wide { IfOk result (λ o. IfSome o (λ row. IfSome row (λ bits. length bits ≡ width))) }
{
    let mut words = words;
    let Some(word) = words.next() else {
        return Ok(None);
    };
    let Some(row) = row_of_word(alloc, word, width)? else {
        return Ok(None);
    };
    Ok(last(row, words))
}

fn row_line(
    alloc: Global,
    lines: &mut TextLines<'_>,
    width: u32,
) -> Result<Option<Bits>, ReportFault>
    ensures gives { Gives result lines.new (line_read (row_of width) lines.old) }
    ensures wide { IfOk result (λ row. IfSome row (λ bits. length bits ≡ width)) }
{
    let row = row_in(alloc, lines.words(), width)?;
    lines.settle(row)
}

/// One row or more, up to the line that ends them. Each has a byte at least.
#[tactic(auto, using(crate::proofs::RowsRead::row_steps))]
fn rows(alloc: Global, lines: &mut TextLines<'_>, width: u32) -> Result<Rows, ReportFault>
    ensures { GivesRows width result lines.new (rows_read width lines.old) }
{
    let mut rows = Rows::new(alloc, width);
    let first = read_bits(alloc, lines, width)?;
    rows.push(&first)?;
    for _number in 0..lines.len() {
        let Some(row) = row_line(alloc, lines, width)? else {
            return Ok(rows);
        };
        rows.push(&row)?;
    }
    Err(lines.fault())
}

/// The witness of a goal.
pub(crate) fn read_witness(
    alloc: Global,
    lines: &mut TextLines<'_>,
    size: Size,
    goal: u32,
) -> Result<Trace, ReportFault>
    ensures { Gives result lines.new (trace_read size.inputs size.latches goal lines.old) }
{
    status_line(lines)?;
    property_line(lines, goal)?;
    let start = read_bits(alloc, lines, size.latches)?;
    let rows = rows(alloc, lines, size.inputs)?;
    Ok(Trace { start, rows })
}
