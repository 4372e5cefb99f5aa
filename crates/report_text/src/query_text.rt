//! The lines of queries: the formula's name, what belongs to the name, and the proof.

ghost use Rattle.std.specs.Prelude.{◌≡◌, ◌∷◌, ◌++◌, OnOk};
ghost use Rattle.report_text.specs.Text.{line, text, name_words, blocked_words, part_lines, query_lines, spents_lines, refutes_lines};

use crate::clause_text::write_clauses;
use crate::report::{Block, BlockName, Blocks};
use crate::text_writer::TextWriter;
use aig_model::Goals;
use ketch_base::OutOfMemory;
use std::alloc::Global;

#[tactic(auto, unfolding(crate::specs::Text::name_words))]
fn write_name(out: &mut TextWriter, name: &BlockName) -> Result<(), OutOfMemory>
    ensures { OnOk result (out.new ≡ out.old ++ line (name_words name.now)) }
{
    match name {
        BlockName::Sweep { step } => out.number_line("sweep", &[u64::from(*step)]),
        BlockName::Hop { batch, step } => {
            out.number_line("hop", &[u64::from(*batch), u64::from(*step)])
        }
        BlockName::Kept { place, clauses } => {
            out.number_line("kept", &[u64::from(*place), clauses.len() as u64])
        }
        BlockName::Excludes { goal, clauses } => {
            out.number_line("excludes", &[u64::from(*goal), clauses.len() as u64])
        }
    }
}

/// The goals that a search leaves out.
fn write_blocked(out: &mut TextWriter, goals: &Goals) -> Result<(), OutOfMemory>
    ensures { OnOk result (out.new ≡ out.old ++ line (blocked_words goals.now)) }
{
    out.word("blocked")?;
    out.next_number(goals.len() as u64)?;
    for goal in goals.as_slice() {
        out.next_number((*goal).into())?;
    }
    out.end_line()?;
    Ok(())
}

#[tactic(auto, unfolding(crate::specs::Text::part_lines))]
fn write_part(out: &mut TextWriter, block: &Block) -> Result<(), OutOfMemory>
    ensures { OnOk result (out.new ≡ out.old ++ text (part_lines block.now.name block.now.blocked)) }
{
    match &block.name {
        BlockName::Sweep { .. } | BlockName::Hop { .. } => write_blocked(out, &block.blocked),
        BlockName::Kept { clauses, .. } | BlockName::Excludes { clauses, .. } => {
            write_clauses(out, clauses)
        }
    }
}

fn write_query(
    alloc: Global,
    out: &mut TextWriter,
    word: &str,
    block: &Block,
) -> Result<(), OutOfMemory>
    ensures { OnOk result (out.new ≡ out.old ++ text (query_lines word.now block.now)) }
{
    out.word(word)?;
    out.word(" ")?;
    write_name(out, &block.name)?;
    write_part(out, block)?;
    out.proof(alloc, &block.proof)?;
    Ok(())
}

pub fn write_spents(alloc: Global, out: &mut TextWriter, blocks: &Blocks) -> Result<(), OutOfMemory>
    ensures { OnOk result (out.new ≡ out.old ++ text (spents_lines blocks.now)) }
{
    out.number_line("spents", &[blocks.len() as u64])?;
    for block in blocks.as_slice() {
        write_query(alloc, out, "spent", block)?;
    }
    Ok(())
}

pub fn write_refutes(
    alloc: Global,
    out: &mut TextWriter,
    blocks: &Blocks,
) -> Result<(), OutOfMemory>
    ensures { OnOk result (out.new ≡ out.old ++ text (refutes_lines blocks.now)) }
{
    out.number_line("refutes", &[blocks.len() as u64])?;
    for block in blocks.as_slice() {
        write_query(alloc, out, "refute", block)?;
    }
    Ok(())
}
