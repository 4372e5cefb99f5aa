//! Seeds.

ghost use Rattle.std.specs.Prelude.{◌≡◌};
ghost use Rattle.report_text.specs.Form.{IsCounted, FitsSeed};
ghost use Rattle.report_text.specs.Text.{seeds_lines};
ghost use Rattle.report_lines.specs.Reading.{Gives, line_read};
ghost use Rattle.report_sections.specs.Pieces.{Reads};
ghost use Rattle.report_sections.specs.Seeds.{bound_of, seed_line_of, seed_rest, seeds_read};

use crate::bits::{read_bits, read_rows};
use crate::head::Size;
use crate::items::{ItemReader, read_section};
use report_lines::{LineWords, ReportFault, TextLines, behind_name, last, small, take_small};
use report_text::{SeedLine, SeedLines};
use std::alloc::Global;

/// A number, or none.
pub fn bound(word: &[u8]) -> Option<Option<u32>>
    ensures { result ≡ bound_of word.now }
{
    if word == b"none".as_slice() {
        return Some(None);
    }
    Some(Some(small(word)?))
}

/// How many rows the seed has, if there is one.
fn rows_in(words: LineWords<'_>, batch: u32) -> Option<Option<u32>>
    ensures { result ≡ seed_line_of batch words.entry }
{
    let mut words = behind_name(b"seed", words)?;
    if take_small(&mut words)? != batch {
        return None;
    }
    let rows = bound(words.next()?)?;
    last(rows, words)
}

fn rows_line(lines: &mut TextLines<'_>, batch: u32) -> Result<Option<u32>, ReportFault>
    ensures { Gives result lines.new (line_read (seed_line_of batch) lines.old) }
{
    let rows = rows_in(lines.words(), batch);
    lines.settle(rows)
}

fn values(
    alloc: Global,
    lines: &mut TextLines<'_>,
    size: Size,
    rows: Option<u32>,
) -> Result<Option<SeedLine>, ReportFault>
    ensures { Gives result lines.new (seed_rest size.inputs size.latches rows lines.old) }
{
    let Some(count) = rows else {
        return Ok(None);
    };
    let start = read_bits(alloc, lines, size.latches)?;
    let rows = read_rows(alloc, lines, size.inputs, count)?;
    let state = read_bits(alloc, lines, size.latches)?;
    Ok(Some(SeedLine { start, rows, state }))
}

#[derive(Drop)]
struct SeedReader {
    size: Size,
}

impl ItemReader for SeedReader {
    type Item = Option<SeedLine>;

    ghost use Rattle.report_sections.specs.Seeds.{seed_read};

    ghost told = { λ s. seed_read s.size.inputs s.size.latches };

    fn read(
        &self,
        alloc: Global,
        lines: &mut TextLines<'_>,
        batch: u32,
    ) -> Result<Option<SeedLine>, ReportFault> {
        let rows = rows_line(lines, batch)?;
        let seed = values(alloc, lines, self.size, rows)?;
        Ok(seed)
    }
}

/// The section of the seeds, one for each batch.
pub fn read_seeds(
    alloc: Global,
    lines: &mut TextLines<'_>,
    size: Size,
) -> Result<SeedLines, ReportFault>
    ensures gives { Gives result lines.new (seeds_read size.inputs size.latches lines.old) }
    ensures reads { Reads (IsCounted (FitsSeed size.inputs size.latches)) seeds_lines lines.old result lines.new }
{
    read_section(alloc, lines, b"seeds", &SeedReader { size })
}
