//! The way of a lane through its first steps, and the seed that it makes there.

ghost use Rattle.std.specs.Prelude.{◌≡◌, ◌<◌, option_copied, IfOk};
ghost use Rattle.sim_batch.specs.Batch.{BelongsTo, lanes_of};
ghost use Rattle.sim_batch.specs.SeedOf.{IsSeedAt};
ghost use Rattle.sim_batch.specs.Ways.{IsLaneAfter, IsLaneWay};

use crate::lane::{lane_rows, start_words};
use crate::seed::{Seed, are_seeds};
use crate::words::{batch_generator, reset_state};
use aig_model::{Bits, Circuit, Trace};
use ketch_base::OutOfMemory;
use sim_walk::Options;
use std::alloc::Global;

/// A lane's way through its first `count` steps, whole from reset.
fn lane_way(
    alloc: Global,
    circuit: &Circuit,
    options: &Options,
    from: Option<&Seed>,
    batch: u32,
    lane: u32,
    count: u32,
) -> Result<Trace, OutOfMemory>
    requires seed { BelongsTo circuit.now (option_copied from) }
    requires lane { lane < 64 }
    ensures { IfOk result (IsLaneWay circuit.now (option_copied from.entry) (lanes_of circuit.now options.now.seed batch (option_copied from.entry)) lane count) }
{
    are_seeds(from);
    let mut generator = batch_generator(options.seed, batch);
    let words = start_words(alloc, circuit, from, &mut generator)?;
    let rows = lane_rows(alloc, circuit, &mut generator, lane, count as usize)?;
    match from {
        None => {
            let start = reset_state(alloc, circuit, words.as_slice(), lane)?;
            Ok(Trace { start, rows })
        }
        Some(seed) => {
            let trace = seed.extend(alloc, &rows)?;
            Ok(trace)
        }
    }
}

/// The seed that a lane makes after its first `count` steps, which led to this state.
pub fn seed_after(
    alloc: Global,
    circuit: &Circuit,
    options: &Options,
    from: Option<&Seed>,
    batch: u32,
    lane: u32,
    count: u32,
    state: Bits,
) -> Result<Seed, OutOfMemory>
    requires seed { BelongsTo circuit.now (option_copied from) }
    requires after { IsLaneAfter circuit.now (lanes_of circuit.now options.now.seed batch (option_copied from)) lane count state }
    ensures { IfOk result (IsSeedAt circuit.now (option_copied from.entry) (lanes_of circuit.now options.now.seed batch (option_copied from.entry))
        lane count) }
{
    are_seeds(from);
    let way = lane_way(alloc, circuit, options, from, batch, lane, count)?;
    let seed = Seed::of_way(circuit, way, state);
    seed.is_well_formed();
    Ok(seed)
}
