//! A batch, and what it ends with.

ghost use Rattle.std.specs.Prelude.{ℕ, ◌≡◌, ◌<◌, ◌+◌, length, map, get_or, option_copied, IfOk};
ghost use Rattle.sim_batch.specs.Batch.{BelongsTo, lanes_of};
ghost use Rattle.sim_batch.specs.Best.{IsBest};
ghost use Rattle.sim_batch.specs.SeedOf.{IsBatch, IsBatchSeed};
ghost use Rattle.sim_batch.specs.Steps.{AreWalks, HaveWalked, goal_count};

use crate::lane_walk::LaneWalk;
use crate::seed::Seed;
use crate::traces::lane_seed;
use crate::walked::walk;
use aig_model::{Circuit, Signals};
use ketch_base::OutOfMemory;
use sim_walk::{Options, Visits};
use std::alloc::Global;

/// What a batch visits, and its seed: none exactly where no lane visits a step.
#[derive(Drop)]
pub struct BatchEnd {
    pub visits: Visits,
    pub seed: Option<Seed>,
}

/// How many goals a lane visited.
fn goal_count(lanes: &[LaneWalk], lane: usize) -> usize
    requires { lane < length lanes.now }
    ensures { result ≡ get_or (map goal_count lanes.now) lane 0 }
{
    lanes[lane].visits.visits().len()
}

/// The lane that visited the most goals, and of these the first.
fn best_lane(lanes: &[LaneWalk]) -> usize
    requires { 0 < length lanes.now }
    ensures { IsBest (map goal_count lanes.now) result }
{
    let mut best = 0;
    for lane in 1..lanes.len() {
        if goal_count(lanes, best) < goal_count(lanes, lane) {
            best = lane;
        }
    }
    best
}

/// The seed of a batch whose lanes walked to its last step.
fn batch_seed(
    alloc: Global,
    circuit: &Circuit,
    signals: &Signals,
    options: &Options,
    from: Option<&Seed>,
    batch: u32,
    lanes: &[LaneWalk],
) -> Result<Option<Seed>, OutOfMemory>
    requires seed { BelongsTo circuit.now (option_copied from) }
    requires walked { HaveWalked circuit.now signals.now.lits (lanes_of circuit.now options.now.seed batch (option_copied from)) lanes.now }
    ensures { (steps : ℕ) → AreWalks circuit.now signals.now.lits (lanes_of circuit.now options.now.seed batch (option_copied from.entry)) steps lanes.now
        → IfOk result (IsBatchSeed circuit.now signals.now.lits (option_copied from.entry)
        (lanes_of circuit.now options.now.seed batch (option_copied from.entry)) steps) }
{
    let best = best_lane(lanes);
    let lived = lanes[best].lived;
    if lived == 0 {
        return Ok(None);
    }
    let seed = lane_seed(alloc, circuit, options, from, batch, best as u32, lived - 1)?;
    Ok(Some(seed))
}

/// Walks a batch: 64 lanes from reset, or from the state of a seed, until the length is reached, no lane
/// lives, or the last `stall` steps brought no goal that is new to the batch.
pub fn walk_batch(
    alloc: Global,
    circuit: &Circuit,
    signals: &Signals,
    options: &Options,
    from: Option<&Seed>,
    batch: u32,
) -> Result<BatchEnd, OutOfMemory>
    requires signals { signals.now.circuit ≡ circuit.now }
    requires seed { BelongsTo circuit.now (option_copied from) }
    requires length { 0 < options.now.length }
    ensures { IfOk result (λ end. IsBatch circuit.now signals.now.lits (option_copied from.entry)
        (lanes_of circuit.now options.now.seed batch (option_copied from.entry)) options.now.length options.now.stall end.visits end.seed) }
{
    let walked = walk(alloc, circuit, signals, options, from, batch)?;
    let seed = batch_seed(
        alloc,
        circuit,
        signals,
        options,
        from,
        batch,
        walked.lanes.as_slice(),
    )?;
    Ok(BatchEnd {
        visits: walked.visits.into_visits(),
        seed,
    })
}
