//! How far the searches and the proofs went, by the options, the seeds and the spent queries.

ghost use Rattle.std.specs.Prelude.{◌≡◌, ◌<◌, ◌^◌, ◌||◌, ℕ, length, get_or, false, IfOk};
ghost use Rattle.std.specs.List.{list_any};
ghost use Rattle.report_text.specs.declared.report.Block.{Block};
ghost use Rattle.report_check.specs.Bounds.{depth_of, excludes_goal, first_step, hop_bound, hop_step, hops_of, is_kept_query, kept_strength, sweep_step, whole_up_to};
ghost use Rattle.report_check.specs.Known.{AreBounds, search_step};

use aig_model::Bits;
use ketch_base::OutOfMemory;
use report_text::{Block, BlockName, HopBound, HopBounds, Report, SeedLine};
use std::alloc::Global;

/// The bounds of open goals. The strength is that of the proofs where no query whether a clause is kept is spent;
/// `cut` is true where a goal's own proof is.
#[derive(Debug, Drop)]
pub(crate) struct Bounds {
    pub(crate) depth: Option<u32>,
    pub(crate) hops: HopBounds,
    pub(crate) strength: Option<u32>,
    pub(crate) cut: Bits,
}

fn sweep_step(name: &BlockName) -> Option<u32>
    ensures { result ≡ sweep_step name.now }
{
    match name {
        BlockName::Sweep { step } => Some(*step),
        BlockName::Hop { .. } | BlockName::Kept { .. } | BlockName::Excludes { .. } => None,
    }
}

fn hop_step(batch: usize, name: &BlockName) -> Option<u32>
    ensures { result ≡ hop_step batch name.now }
{
    match name {
        BlockName::Hop { batch: own, step } if *own as usize == batch => Some(*step),
        BlockName::Hop { .. }
        | BlockName::Sweep { .. }
        | BlockName::Kept { .. }
        | BlockName::Excludes { .. } => None,
    }
}

/// The step of a query of the sweep, which is search 0, or of the hop of batch b, search b + 1.
fn search_step(search: usize, name: &BlockName) -> Option<u32>
    ensures { result ≡ search_step search name.now }
{
    match search.checked_sub(1) {
        None => sweep_step(name),
        Some(batch) => hop_step(batch, name),
    }
}

fn first_step(search: usize, spents: &[Block]) -> Option<u32>
    ensures { result ≡ first_step (search_step search) spents.now }
{
    for block in spents {
        let step = search_step(search, &block.name);
        if step.is_some() {
            return step;
        }
    }
    None
}

/// The last step that was searched whole: all that was asked for, or the one before the spent query's.
fn whole_up_to(asked: u32, spent: Option<u32>) -> Option<u32>
    ensures { result ≡ whole_up_to asked spent }
{
    match spent {
        None => Some(asked),
        Some(step) => step.checked_sub(1),
    }
}

fn depth_bound(report: &Report) -> Option<u32>
    ensures { result ≡ depth_of report.now }
{
    whole_up_to(
        report.options.depth,
        first_step(0, report.spents.as_slice()),
    )
}

fn hop_bound(report: &Report, batch: usize, seed: &Option<SeedLine>) -> HopBound
    requires { batch < 2 ^ 32 }
    ensures { result ≡ hop_bound report.now.options report.now.spents batch seed.now }
{
    if seed.is_none() {
        return HopBound::NoSeed;
    }
    let spent = first_step(batch + 1, report.spents.as_slice());
    match whole_up_to(report.options.hop, spent) {
        None => HopBound::Nothing,
        Some(step) => HopBound::To(step),
    }
}

fn hop_bounds(alloc: Global, report: &Report) -> Result<HopBounds, OutOfMemory>
    requires { length report.now.seeds < 2 ^ 32 }
    ensures { IfOk result (λ hops. hops ≡ hops_of report.now) }
{
    let mut hops = HopBounds::new(alloc);
    for (batch, seed) in report.seeds.as_slice().iter().enumerate() {
        hops.push(hop_bound(report, batch, seed))?;
    }
    Ok(hops)
}

fn is_kept_query(name: &BlockName) -> bool
    ensures { result ≡ is_kept_query name.now }
{
    match name {
        BlockName::Kept { .. } => true,
        BlockName::Sweep { .. } | BlockName::Hop { .. } | BlockName::Excludes { .. } => false,
    }
}

fn has_kept_query(spents: &[Block]) -> bool
    ensures { result ≡ list_any (λ (b : Block). is_kept_query b.name) spents.now }
{
    spents.iter().any(|block| is_kept_query(&block.name))
}

fn strength_bound(report: &Report) -> Option<u32>
    ensures { result ≡ kept_strength report.now }
{
    if has_kept_query(report.spents.as_slice()) {
        None
    } else {
        Some(report.options.strength)
    }
}

fn cut_one(cut: &mut Bits, name: &BlockName)
    ensures size { length cut.new ≡ length cut.old }
    ensures cut { (goal : ℕ) → goal < length cut.old → get_or cut.new goal false ≡ (get_or cut.old goal false || excludes_goal goal name.now) }
{
    if let BlockName::Excludes { goal, .. } = name {
        let place = *goal as usize;
        if place < cut.len() {
            cut.set(place, true);
        }
    }
}

/// Of each goal, whether its own proof is spent.
fn cut_goals(alloc: Global, goals: u32, spents: &[Block]) -> Result<Bits, OutOfMemory>
    ensures size { IfOk result (λ cut. length cut ≡ goals) }
    ensures cut { IfOk result (λ cut. (goal : ℕ) → goal < goals → get_or cut goal false ≡ list_any (λ (b : Block). excludes_goal goal b.name) spents.now) }
{
    let mut cut = Bits::all_false(alloc, goals as usize)?;
    for block in spents {
        cut_one(&mut cut, &block.name);
    }
    Ok(cut)
}

pub(crate) fn bounds_of(alloc: Global, report: &Report, goals: u32) -> Result<Bounds, OutOfMemory>
    requires { length report.now.seeds < 2 ^ 32 }
    ensures { IfOk result (AreBounds report.now goals) }
{
    let hops = hop_bounds(alloc, report)?;
    let cut = cut_goals(alloc, goals, report.spents.as_slice())?;
    Ok(Bounds {
        depth: depth_bound(report),
        hops,
        strength: strength_bound(report),
        cut,
    })
}
