//! How far the searches and the proofs of a run went.

ghost use Rattle.std.specs.Prelude.{◌≡◌, ◌≤◌, ◌^◌, length, All, IfOk};
ghost use Rattle.report_text.specs.declared.report.Block.{Block};
ghost use Rattle.run_report.specs.Bounds.{whole_up_to, first_step, sweep_step, hop_step};
ghost use Rattle.run_report.specs.Ends.{optional};
ghost use Rattle.run_report.specs.Ended.{AreBounds, AreCut, NamesGoal, cut_after, end_bound, excludes_blocks, hops_of, strength_after};

use crate::ends::{BatchEnd, BatchEnds, Ends, ProverEnd};
use crate::open_goals::OpenBounds;
use aig_model::Bits;
use ketch_base::OutOfMemory;
use report_text::{Block, BlockName, Blocks, HopBound, HopBounds};
use sim_walk::Options;
use std::alloc::Global;

fn sweep_step(name: &BlockName) -> Option<u32>
    ensures { result ≡ sweep_step name.now }
{
    match name {
        BlockName::Sweep { step } => Some(*step),
        BlockName::Hop { .. } | BlockName::Kept { .. } | BlockName::Excludes { .. } => None,
    }
}

fn hop_step(batch: u32, name: &BlockName) -> Option<u32>
    ensures { result ≡ hop_step batch name.now }
{
    match name {
        BlockName::Hop { batch: own, step } if *own == batch => Some(*step),
        BlockName::Hop { .. }
        | BlockName::Sweep { .. }
        | BlockName::Kept { .. }
        | BlockName::Excludes { .. } => None,
    }
}

/// The last step that was searched whole: all that was asked for, or the one before the spent query's.
fn whole_up_to(asked: u32, spent: Option<u32>) -> Option<u32>
    ensures { result ≡ whole_up_to asked spent }
{
    match spent {
        None => Some(asked),
        Some(step) => step.checked_sub(1),
    }
}

fn depth_bound(options: &Options, spent: &Option<Block>) -> Option<u32>
    ensures { result ≡ whole_up_to options.now.depth (first_step sweep_step (optional spent.now)) }
{
    match spent {
        None => whole_up_to(options.depth, None),
        Some(block) => whole_up_to(options.depth, sweep_step(&block.name)),
    }
}

fn hop_bound(options: &Options, batch: u32, end: &BatchEnd) -> HopBound
    ensures { result ≡ end_bound options.now batch end.now }
{
    if end.seed.is_none() {
        return HopBound::NoSeed;
    }
    let step = match &end.hop.spent {
        None => None,
        Some(block) => hop_step(batch, &block.name),
    };
    match whole_up_to(options.hop, step) {
        None => HopBound::Nothing,
        Some(step) => HopBound::To(step),
    }
}

fn hop_bounds(alloc: Global, options: &Options, ends: &BatchEnds) -> Result<HopBounds, OutOfMemory>
    requires { length ends.now ≤ 2 ^ 32 }
    ensures { IfOk result (λ hops. hops ≡ hops_of options.now ends.now) }
{
    let mut hops = HopBounds::new(alloc);
    for (batch, end) in ends.as_slice().iter().enumerate() {
        hops.push(hop_bound(options, batch as u32, end))?;
    }
    Ok(hops)
}

fn strength_after(options: &Options, prover: &ProverEnd) -> Option<u32>
    ensures { result ≡ strength_after options.now prover.now }
{
    match prover {
        ProverEnd::NotRun | ProverEnd::Spent(_) => None,
        ProverEnd::AllSettled | ProverEnd::Whole { .. } => Some(options.strength),
    }
}

fn cut_one(cut: &mut Bits, name: &BlockName)
    requires { NamesGoal (length cut.old) name.now }
    ensures { cut.new ≡ cut_after cut.old name.now }
{
    if let BlockName::Excludes { goal, .. } = name {
        cut.set(*goal as usize, true);
    }
}

/// Of each goal, whether its own query is among these.
fn cut_goals(alloc: Global, goals: u32, spents: &Blocks) -> Result<Bits, OutOfMemory>
    requires { All (λ (b : Block). NamesGoal goals b.name) spents.now }
    ensures size { IfOk result (λ cut. length cut ≡ goals) }
    ensures cut { IfOk result (AreCut spents.now) }
{
    let mut cut = Bits::all_false(alloc, goals as usize)?;
    for block in spents.as_slice() {
        cut_one(&mut cut, &block.name);
    }
    Ok(cut)
}

fn cut_by(alloc: Global, goals: u32, prover: &ProverEnd) -> Result<Bits, OutOfMemory>
    requires { All (λ (b : Block). NamesGoal goals b.name) (excludes_blocks prover.now) }
    ensures size { IfOk result (λ cut. length cut ≡ goals) }
    ensures cut { IfOk result (AreCut (excludes_blocks prover.now)) }
{
    match prover {
        ProverEnd::Whole { spents, .. } => cut_goals(alloc, goals, spents),
        ProverEnd::NotRun | ProverEnd::AllSettled | ProverEnd::Spent(_) => {
            let cut = Bits::all_false(alloc, goals as usize)?;
            Ok(cut)
        }
    }
}

/// The bounds that the ends leave for goals that nothing settles.
pub(crate) fn bounds_of(
    alloc: Global,
    options: &Options,
    goals: u32,
    ends: &Ends,
) -> Result<OpenBounds, OutOfMemory>
    requires batches { length ends.now.batches ≤ 2 ^ 32 }
    requires names { All (λ (b : Block). NamesGoal goals b.name) (excludes_blocks ends.now.prover) }
    ensures { IfOk result (AreBounds options.now goals ends.now) }
{
    let hops = hop_bounds(alloc, options, &ends.batches)?;
    let cut = cut_by(alloc, goals, &ends.prover)?;
    Ok(OpenBounds {
        depth: depth_bound(options, &ends.sweep.spent),
        hops,
        strength: strength_after(options, &ends.prover),
        cut,
    })
}
