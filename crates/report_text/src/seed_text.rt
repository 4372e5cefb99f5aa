//! The lines of seeds.

ghost use Rattle.std.specs.Prelude.{◌≡◌, ◌++◌, OnOk};
ghost use Rattle.report_text.specs.Text.{text, seed_lines, seeds_lines};

use crate::report::{SeedLine, SeedLines};
use crate::text_writer::TextWriter;
use ketch_base::OutOfMemory;
use std::alloc::Global;

#[tactic(auto, unfolding(crate::specs::Text::seed_lines))]
fn write_no_seed(out: &mut TextWriter, batch: u64) -> Result<(), OutOfMemory>
    ensures { OnOk result (out.new ≡ out.old ++ text (seed_lines batch None)) }
{
    out.word("seed")?;
    out.next_number(batch)?;
    out.next_word("none")?;
    out.end_line()?;
    Ok(())
}

fn write_seed_line(
    alloc: Global,
    out: &mut TextWriter,
    batch: u64,
    seed: &SeedLine,
) -> Result<(), OutOfMemory>
    ensures { OnOk result (out.new ≡ out.old ++ text (seed_lines batch (Some seed.now))) }
{
    out.number_line("seed", &[batch, seed.rows.len() as u64])?;
    out.bits(&seed.start)?;
    out.rows(alloc, &seed.rows)?;
    out.bits(&seed.state)?;
    Ok(())
}

fn write_seed(
    alloc: Global,
    out: &mut TextWriter,
    batch: u64,
    seed: &Option<SeedLine>,
) -> Result<(), OutOfMemory>
    ensures { OnOk result (out.new ≡ out.old ++ text (seed_lines batch seed.now)) }
{
    match seed {
        None => write_no_seed(out, batch),
        Some(seed) => write_seed_line(alloc, out, batch, seed),
    }
}

pub fn write_seeds(
    alloc: Global,
    out: &mut TextWriter,
    seeds: &SeedLines,
) -> Result<(), OutOfMemory>
    ensures { OnOk result (out.new ≡ out.old ++ text (seeds_lines seeds.now)) }
{
    out.number_line("seeds", &[seeds.len() as u64])?;
    for (batch, seed) in seeds.as_slice().iter().enumerate() {
        write_seed(alloc, out, batch as u64, seed)?;
    }
    Ok(())
}
