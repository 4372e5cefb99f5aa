//! The trace that leads a lane to what it visits, and the seed that it makes there.

ghost use Rattle.std.specs.Prelude.{◌≡◌, option_copied, IfOk};
ghost use Rattle.aig_model.specs.Replays.{Shows};
ghost use Rattle.sim_batch.specs.Batch.{BelongsTo, IsLaneTrace, lanes_of};
ghost use Rattle.sim_batch.specs.SeedOf.{IsBatchVisit, IsSeedAt, VisitsSome};

use crate::lane::lane_trace;
use crate::seed::{Seed, are_seeds};
use aig_model::{Circuit, Signals, Trace};
use ketch_base::OutOfMemory;
use sim_walk::{Options, Visit};
use std::alloc::Global;

/// The trace of a visit of a batch: the lane's rows up to the step that it visits, whole from reset.
pub fn visit_trace(
    alloc: Global,
    circuit: &Circuit,
    signals: &Signals,
    options: &Options,
    from: Option<&Seed>,
    batch: u32,
    visit: &Visit,
) -> Result<Trace, OutOfMemory>
    requires signals { signals.now.circuit ≡ circuit.now }
    requires seed { BelongsTo circuit.now (option_copied from) }
    requires visit { IsBatchVisit circuit.now signals.now.lits (lanes_of circuit.now options.now.seed batch (option_copied from))
        options.now.length options.now.stall visit.now }
    ensures trace { IfOk result (IsLaneTrace circuit.now (option_copied from.entry) (lanes_of circuit.now options.now.seed batch (option_copied from.entry))
        visit.now.lane visit.now.step) }
    ensures shows { IfOk result (λ trace. Shows circuit.now signals.now.lits trace visit.now.goal) }
{
    are_seeds(from);
    let trace = lane_trace(alloc, circuit, options, from, batch, visit.lane, visit.step)?;
    Ok(trace)
}

/// The seed that is made where a lane visits a step.
pub fn lane_seed(
    alloc: Global,
    circuit: &Circuit,
    options: &Options,
    from: Option<&Seed>,
    batch: u32,
    lane: u32,
    step: u32,
) -> Result<Seed, OutOfMemory>
    requires seed { BelongsTo circuit.now (option_copied from) }
    requires visit { VisitsSome circuit.now (lanes_of circuit.now options.now.seed batch (option_copied from)) lane step }
    ensures { IfOk result (IsSeedAt circuit.now (option_copied from.entry) (lanes_of circuit.now options.now.seed batch (option_copied from.entry))
        lane step) }
{
    are_seeds(from);
    let trace = lane_trace(alloc, circuit, options, from, batch, lane, step)?;
    let seed = Seed::from_reached(alloc, circuit, &trace)?;
    seed.is_well_formed();
    Ok(seed)
}
