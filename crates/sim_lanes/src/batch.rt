//! A batch of walks.

ghost use Rattle.std.specs.Prelude.{◌≡◌, ◌<◌, if◌then◌else◌, get_or, length, option_copied, IfOk};
ghost use Rattle.sim_batch.specs.Batch.{BelongsTo, lanes_of};
ghost use Rattle.sim_batch.specs.SeedOf.{IsBatch, IsBatchSeed};
ghost use Rattle.sim_lanes.specs.Lanes.{AreWalked, lived_of};

use crate::best::best_lane;
use crate::lanes::LaneWords;
use crate::walked::{Walked, walk};
use aig_model::{Circuit, Signals};
use ketch_base::OutOfMemory;
use sim_batch::{BatchEnd, Seed, lane_bit, lane_row, seed_after};
use sim_walk::Options;
use std::alloc::Global;

/// How many of these steps a lane lived.
fn steps_lived(lanes: &LaneWords, steps: u32, lane: u32) -> u32
    requires lane { lane < 64 }
    requires died { length lanes.now.died.items ≡ 64 }
    ensures { result ≡ lived_of steps lanes.now.live lanes.now.died.items lane }
{
    if lane_bit(lanes.live, lane) {
        steps
    } else {
        lanes.died[lane as usize]
    }
}

/// The seed of a batch whose lanes walked to its last step.
fn batch_seed(
    alloc: Global,
    circuit: &Circuit,
    signals: &Signals,
    options: &Options,
    from: Option<&Seed>,
    batch: u32,
    walked: &Walked,
) -> Result<Option<Seed>, OutOfMemory>
    requires seed { BelongsTo circuit.now (option_copied from) }
    requires walked { AreWalked circuit.now signals.now.lits (lanes_of circuit.now options.now.seed batch (option_copied from))
        options.now.length options.now.stall walked.now }
    ensures { IfOk result (IsBatchSeed circuit.now signals.now.lits (option_copied from.entry)
        (lanes_of circuit.now options.now.seed batch (option_copied from.entry)) walked.now.steps) }
{
    let lane = best_lane(walked.lanes.seen.as_slice());
    let lived = steps_lived(&walked.lanes, walked.steps, lane);
    if lived == 0 {
        return Ok(None);
    }
    let state = lane_row(alloc, walked.lanes.before.as_slice(), lane)?;
    let seed = seed_after(alloc, circuit, options, from, batch, lane, lived - 1, state)?;
    Ok(Some(seed))
}

/// Walks a batch: 64 lanes from reset, or from the state of a seed, until the length is reached, no lane
/// lives, or the last `stall` steps brought no goal that is new to the batch. All lanes take a step at once.
pub fn lane_batch(
    alloc: Global,
    circuit: &Circuit,
    signals: &Signals,
    options: &Options,
    from: Option<&Seed>,
    batch: u32,
) -> Result<BatchEnd, OutOfMemory>
    requires signals { signals.now.circuit ≡ circuit.now }
    requires seed { BelongsTo circuit.now (option_copied from) }
    requires length { 0 < options.now.length }
    ensures { IfOk result (λ end. IsBatch circuit.now signals.now.lits (option_copied from.entry)
        (lanes_of circuit.now options.now.seed batch (option_copied from.entry)) options.now.length options.now.stall end.visits end.seed) }
{
    let walked = walk(alloc, circuit, signals, options, from, batch)?;
    let seed = batch_seed(alloc, circuit, signals, options, from, batch, &walked)?;
    Ok(BatchEnd {
        visits: walked.visits.into_visits(),
        seed,
    })
}
