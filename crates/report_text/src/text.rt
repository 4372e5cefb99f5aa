//! The text of a report.

ghost use Rattle.std.specs.Prelude.{◌≡◌, ◌∷◌, ◌++◌, decimal, OnOk, IfOk};
ghost use Rattle.std.specs.List.{flat_map};
ghost use Rattle.report_text.specs.Text.{line, text, size_words, options_words, kind_text, source_text, entry_words, history_lines, bound_text, hop_text, open_words, block_lines, goals_lines, end_words, report_text};

use crate::clause_text::write_invs;
use crate::query_text::{write_refutes, write_spents};
use crate::report::{GoalBlock, GoalBlocks, HopBound, HopBounds, Report};
use crate::seed_text::write_seeds;
use crate::text_writer::TextWriter;
use aig_model::{Kind, Trace};
use board_core::{Entries, Entry, Source};
use ketch_base::OutOfMemory;
use lrat_text::Proof;
use sim_walk::Options;
use std::alloc::Global;

#[tactic(auto, unfolding(crate::specs::Text::size_words))]
fn write_size(out: &mut TextWriter, report: &Report) -> Result<(), OutOfMemory>
    ensures { OnOk result (out.new ≡ out.old ++ line (size_words report.now)) }
{
    let numbers = [
        report.inputs.into(),
        report.latches.into(),
        report.signals.into(),
    ];
    out.number_line("size", &numbers)?;
    Ok(())
}

#[tactic(auto, unfolding(crate::specs::Text::options_words))]
fn write_options(out: &mut TextWriter, options: &Options) -> Result<(), OutOfMemory>
    ensures { OnOk result (out.new ≡ out.old ++ line (options_words options.now)) }
{
    let numbers = [
        options.depth.into(),
        options.batches.into(),
        options.length.into(),
        options.stall.into(),
        options.hop.into(),
        options.seed,
        options.lemmas,
        options.strength.into(),
        options.rounds.into(),
        options.proofs.into(),
    ];
    out.number_line("options", &numbers)?;
    Ok(())
}

#[tactic(auto, unfolding(crate::specs::Text::kind_text))]
fn kind_word(kind: Kind) -> &'static str
    ensures { result.now ≡ kind_text kind }
{
    match kind {
        Kind::Reached => "r",
        Kind::Unreachable => "u",
    }
}

/// A word that ends in a number.
fn write_numbered(out: &mut TextWriter, word: &str, n: u32) -> Result<(), OutOfMemory>
    ensures { OnOk result (out.new ≡ out.old ++ 32 ∷ (word.now ++ decimal n)) }
{
    out.next_word(word)?;
    out.number(n.into())?;
    Ok(())
}

#[tactic(auto, unfolding(crate::specs::Text::source_text))]
fn write_source(out: &mut TextWriter, source: Source) -> Result<(), OutOfMemory>
    ensures { OnOk result (out.new ≡ out.old ++ 32 ∷ source_text source) }
{
    match source {
        Source::Zero => out.next_word("zero"),
        Source::Walk(batch) => write_numbered(out, "walk:", batch),
        Source::Sweep => out.next_word("sweep"),
        Source::Hop(batch) => write_numbered(out, "hop:", batch),
        Source::Again(round) => write_numbered(out, "again:", round),
        Source::Proved => out.next_word("proved"),
    }
}

#[tactic(auto, unfolding(crate::specs::Text::entry_words))]
fn write_entry(out: &mut TextWriter, entry: &Entry) -> Result<(), OutOfMemory>
    ensures { OnOk result (out.new ≡ out.old ++ line (entry_words entry.now)) }
{
    out.number(entry.number)?;
    out.next_number(entry.caller.into())?;
    out.next_number(entry.goal.into())?;
    out.next_word(kind_word(entry.kind))?;
    write_source(out, entry.source)?;
    out.next_number(entry.low)?;
    out.end_line()?;
    Ok(())
}

fn write_history(out: &mut TextWriter, entries: &Entries) -> Result<(), OutOfMemory>
    ensures { OnOk result (out.new ≡ out.old ++ text (history_lines entries.now)) }
{
    out.number_line("history", &[entries.len() as u64])?;
    for entry in entries.as_slice() {
        write_entry(out, entry)?;
    }
    Ok(())
}

#[tactic(auto, unfolding(crate::specs::Text::bound_text))]
fn write_bound(out: &mut TextWriter, bound: Option<u32>) -> Result<(), OutOfMemory>
    ensures { OnOk result (out.new ≡ out.old ++ 32 ∷ bound_text bound) }
{
    match bound {
        None => out.next_word("none"),
        Some(n) => out.next_number(n.into()),
    }
}

#[tactic(auto, unfolding(crate::specs::Text::hop_text))]
fn write_hop(out: &mut TextWriter, hop: HopBound) -> Result<(), OutOfMemory>
    ensures { OnOk result (out.new ≡ out.old ++ 32 ∷ hop_text hop) }
{
    match hop {
        HopBound::To(n) => out.next_number(n.into()),
        HopBound::Nothing => out.next_word("none"),
        HopBound::NoSeed => out.next_word("noseed"),
    }
}

fn write_hops(out: &mut TextWriter, hops: &HopBounds) -> Result<(), OutOfMemory>
    ensures { OnOk result (out.new ≡ out.old ++ flat_map (λ h. 32 ∷ hop_text h) hops.now) }
{
    for hop in hops.as_slice() {
        write_hop(out, *hop)?;
    }
    Ok(())
}

fn write_open(
    out: &mut TextWriter,
    goal: u64,
    depth: Option<u32>,
    hops: &HopBounds,
    strength: Option<u32>,
) -> Result<(), OutOfMemory>
    ensures { OnOk result (out.new ≡ out.old ++ line (open_words goal depth hops.now strength)) }
{
    out.word("goal")?;
    out.next_number(goal)?;
    out.next_word("open depth")?;
    write_bound(out, depth)?;
    out.next_word("hops")?;
    write_hops(out, hops)?;
    out.next_word("strength")?;
    write_bound(out, strength)?;
    out.end_line()?;
    Ok(())
}

#[tactic(auto, unfolding(crate::specs::Text::block_lines))]
fn write_reached(
    out: &mut TextWriter,
    goal: u64,
    number: u64,
    witness: &Trace,
) -> Result<(), OutOfMemory>
    ensures { OnOk result (out.new ≡ out.old ++ text (block_lines goal (GoalBlock.Reached number witness.now))) }
{
    out.word("goal")?;
    out.next_number(goal)?;
    out.next_word("reached")?;
    out.next_number(number)?;
    out.end_line()?;
    out.witness(goal, witness)?;
    Ok(())
}

#[tactic(auto, unfolding(crate::specs::Text::block_lines))]
fn write_unreachable(
    alloc: Global,
    out: &mut TextWriter,
    goal: u64,
    number: u64,
    inv: u32,
    proof: &Proof,
) -> Result<(), OutOfMemory>
    ensures { OnOk result (out.new ≡ out.old ++ text (block_lines goal (GoalBlock.Unreachable number inv proof.now))) }
{
    out.word("goal")?;
    out.next_number(goal)?;
    out.next_word("unreachable")?;
    out.next_number(number)?;
    out.next_word("inv")?;
    out.next_number(inv.into())?;
    out.end_line()?;
    out.proof(alloc, proof)?;
    Ok(())
}

#[tactic(auto, unfolding(crate::specs::Text::block_lines))]
fn write_block(
    alloc: Global,
    out: &mut TextWriter,
    goal: u64,
    block: &GoalBlock,
) -> Result<(), OutOfMemory>
    ensures { OnOk result (out.new ≡ out.old ++ text (block_lines goal block.now)) }
{
    match block {
        GoalBlock::Reached { number, witness } => write_reached(out, goal, *number, witness),
        GoalBlock::Unreachable { number, inv, proof } => {
            write_unreachable(alloc, out, goal, *number, *inv, proof)
        }
        GoalBlock::Open {
            depth,
            hops,
            strength,
        } => write_open(out, goal, *depth, hops, *strength),
    }
}

fn write_goals(alloc: Global, out: &mut TextWriter, blocks: &GoalBlocks) -> Result<(), OutOfMemory>
    ensures { OnOk result (out.new ≡ out.old ++ text (goals_lines blocks.now)) }
{
    out.number_line("goals", &[blocks.len() as u64])?;
    for (goal, block) in blocks.as_slice().iter().enumerate() {
        write_block(alloc, out, goal as u64, block)?;
    }
    Ok(())
}

#[tactic(auto, unfolding(crate::specs::Text::end_words))]
fn write_end(out: &mut TextWriter, report: &Report) -> Result<(), OutOfMemory>
    ensures { OnOk result (out.new ≡ out.old ++ line (end_words report.now)) }
{
    out.number_line(
        "end",
        &[
            report.reached.into(),
            report.unreachable.into(),
            report.unsettled.into(),
        ],
    )
}

/// The text of a report, in time linear in its length.
pub fn text_of(alloc: Global, report: &Report) -> Result<Vec<u8>, OutOfMemory>
    ensures { IfOk result (λ bytes. bytes.items ≡ report_text report.now) }
{
    let mut out = TextWriter::new(alloc);
    out.word("ketch 1\n")?;
    write_size(&mut out, report)?;
    write_options(&mut out, &report.options)?;
    write_history(&mut out, &report.history)?;
    write_seeds(alloc, &mut out, &report.seeds)?;
    write_invs(alloc, &mut out, &report.invs)?;
    write_goals(alloc, &mut out, &report.goals)?;
    write_spents(alloc, &mut out, &report.spents)?;
    write_refutes(alloc, &mut out, &report.refutes)?;
    write_end(&mut out, report)?;
    Ok(out.into_bytes())
}
