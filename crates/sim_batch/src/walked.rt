//! The walk of a batch's lanes.

ghost use Rattle.std.specs.Prelude.{◌≡◌, ◌<◌, option_copied, IfOk};
ghost use Rattle.sim_batch.specs.Batch.{BelongsTo, lanes_of};
ghost use Rattle.sim_batch.specs.Walked.{IsWalked};

use crate::lane::start_words;
use crate::lane_walk::LaneWalk;
use crate::over::is_over;
use crate::rounds::{first_lanes, step_lanes};
use crate::seed::{Seed, are_seeds};
use crate::words::{batch_generator, draw};
use aig_model::{Circuit, Signals};
use ketch_base::OutOfMemory;
use sim_walk::{FirstVisits, Options};
use std::alloc::Global;

/// The lanes of a batch after its last step, and what they visited.
#[derive(Drop)]
pub struct Walked {
    pub lanes: Vec<LaneWalk>,
    pub visits: FirstVisits,
}

/// Lets the lanes of a batch walk to its last step.
pub(crate) fn walk(
    alloc: Global,
    circuit: &Circuit,
    signals: &Signals,
    options: &Options,
    from: Option<&Seed>,
    batch: u32,
) -> Result<Walked, OutOfMemory>
    requires signals { signals.now.circuit ≡ circuit.now }
    requires seed { BelongsTo circuit.now (option_copied from) }
    requires length { 0 < options.now.length }
    ensures { IfOk result (IsWalked circuit.now signals.now.lits (lanes_of circuit.now options.now.seed batch (option_copied from.entry))
        options.now.length options.now.stall) }
{
    are_seeds(from);
    let mut generator = batch_generator(options.seed, batch);
    let start = start_words(alloc, circuit, from, &mut generator)?;
    let mut lanes = first_lanes(alloc, circuit, signals, from, start.as_slice())?;
    let mut visits = FirstVisits::new(alloc, signals.goals())?;
    let mut words = vec![in alloc; 0u64; circuit.inputs().len()]?;
    for step in 0..options.length {
        draw(&mut generator, &mut words);
        step_lanes(
            alloc,
            circuit,
            signals,
            &mut lanes,
            words.as_slice(),
            step,
            &mut visits,
        )?;
        if is_over(
            circuit,
            signals,
            lanes.as_slice(),
            visits.visits(),
            options.stall,
            step,
        ) {
            return Ok(Walked { lanes, visits });
        }
    }
    Ok(Walked { lanes, visits })
}
