//! The lines of the sizes, of the options and of the counts.

ghost use Rattle.std.specs.Prelude.{◌≡◌, ◌↔◌, count_by, IsTrue, MatchResult};
ghost use Rattle.report_check.specs.Blocks.{is_open, is_reached, is_unreachable};
ghost use Rattle.report_check.specs.Conditions.{IsFaultOf, MeetsAll};
ghost use Rattle.report_check.specs.Sizes.{AreInRange, HasCounts, HasRoom, IsSized};

use crate::fault::{CheckFault, CheckKind, Part};
use aig_model::{Circuit, Signals};
use report_text::{GoalBlock, Report};
use sim_walk::Options;

fn is_sized(circuit: &Circuit, signals: &Signals, report: &Report) -> bool
    ensures { IsTrue result ↔ IsSized circuit.now signals.now.lits report.now }
{
    report.inputs as usize == circuit.inputs().len()
        && report.latches as usize == circuit.latches().len()
        && report.signals as usize == signals.lits().len()
}

fn are_in_range(options: &Options) -> bool
    ensures { IsTrue result ↔ AreInRange options.now }
{
    options.depth <= 200
        && options.batches <= 16
        && options.length >= 1
        && options.length <= 100_000
        && options.stall >= 1
        && options.stall <= 100_000
        && options.hop <= 50
        && options.lemmas >= 1
        && options.lemmas <= 1_000_000
        && options.strength <= 2
        && options.rounds <= 16
}

fn has_room(options: &Options, circuit: &Circuit) -> bool
    ensures { IsTrue result ↔ HasRoom options.now circuit.now }
{
    let steps = u64::from(options.depth.max(options.hop)) + 1;
    let width = (circuit.inputs().len() as u64).saturating_add(1);
    steps.saturating_mul(u64::from(circuit.top()) + 1) <= 4_000_000
        && width.saturating_mul(options.length.into()) <= 2_000_000
}

/// Whether the options are those of a run over this circuit.
fn are_options(options: &Options, circuit: &Circuit) -> bool
    ensures { IsTrue result ↔ (AreInRange options.now × HasRoom options.now circuit.now) }
{
    are_in_range(options) && has_room(options, circuit)
}

pub(crate) fn check_size(
    circuit: &Circuit,
    signals: &Signals,
    report: &Report,
) -> Result<(), CheckFault>
    ensures { MatchResult result (λ _. MeetsAll circuit.now signals.now.lits report.now Part.Size) (IsFaultOf circuit.now signals.now.lits report.now Part.Size) }
{
    if !is_sized(circuit, signals, report) {
        return Err(CheckFault::At {
            part: Part::Size,
            at: 0,
            kind: CheckKind::Differs,
        });
    }
    if !are_options(&report.options, circuit) {
        return Err(CheckFault::At {
            part: Part::Size,
            at: 0,
            kind: CheckKind::Options,
        });
    }
    Ok(())
}

pub(crate) fn is_open(block: &GoalBlock) -> bool
    ensures { result ≡ is_open block.now }
{
    match block {
        GoalBlock::Open { .. } => true,
        GoalBlock::Reached { .. } | GoalBlock::Unreachable { .. } => false,
    }
}

fn is_reached(block: &GoalBlock) -> bool
    ensures { result ≡ is_reached block.now }
{
    match block {
        GoalBlock::Reached { .. } => true,
        GoalBlock::Unreachable { .. } | GoalBlock::Open { .. } => false,
    }
}

fn is_unreachable(block: &GoalBlock) -> bool
    ensures { result ≡ is_unreachable block.now }
{
    match block {
        GoalBlock::Unreachable { .. } => true,
        GoalBlock::Reached { .. } | GoalBlock::Open { .. } => false,
    }
}

fn reached_among(blocks: &[GoalBlock]) -> usize
    ensures { result ≡ count_by is_reached blocks.now }
{
    blocks.iter().filter(|block| is_reached(block)).count()
}

fn unreachable_among(blocks: &[GoalBlock]) -> usize
    ensures { result ≡ count_by is_unreachable blocks.now }
{
    blocks.iter().filter(|block| is_unreachable(block)).count()
}

fn open_among(blocks: &[GoalBlock]) -> usize
    ensures { result ≡ count_by is_open blocks.now }
{
    blocks.iter().filter(|block| is_open(block)).count()
}

fn has_counts(report: &Report) -> bool
    ensures { IsTrue result ↔ HasCounts report.now }
{
    let blocks = report.goals.as_slice();
    report.reached as usize == reached_among(blocks)
        && report.unreachable as usize == unreachable_among(blocks)
        && report.unsettled as usize == open_among(blocks)
}

pub(crate) fn check_end(
    circuit: &Circuit,
    signals: &Signals,
    report: &Report,
) -> Result<(), CheckFault>
    ensures { MatchResult result (λ _. MeetsAll circuit.now signals.now.lits report.now Part.End) (IsFaultOf circuit.now signals.now.lits report.now Part.End) }
{
    if !has_counts(report) {
        return Err(CheckFault::At {
            part: Part::End,
            at: 0,
            kind: CheckKind::Counts,
        });
    }
    Ok(())
}
