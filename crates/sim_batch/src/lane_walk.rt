//! One lane of a batch, step by step.

ghost use Rattle.std.specs.Prelude.{◌≡◌, ◌<◌, ◌+◌, ◌^◌, length, OnOk, IfOk};
ghost use Rattle.sim_batch.specs.Steps.{Advances, IsReady, Notes, WalksOn};

use crate::words::lane_row;
use aig_eval::{goal_of, is_legal, next_state, step_values};
use aig_model::{Bits, Circuit, Signals};
use ketch_base::OutOfMemory;
use sim_walk::{FirstVisits, Visit};
use std::alloc::Global;

/// A lane after some steps: how many of them it lived, where these led, and what it visited.
#[derive(Drop)]
pub struct LaneWalk {
    pub state: Bits,
    pub lived: u32,
    pub visits: FirstVisits,
}

/// Moves a state on by one step where that is legal, and gives the goal that the step shows.
pub(crate) fn advance(
    alloc: Global,
    circuit: &Circuit,
    signals: &Signals,
    state: &mut Bits,
    row: &Bits,
) -> Result<Option<u32>, OutOfMemory>
    requires signals { signals.now.circuit ≡ circuit.now }
    requires state { length state.old ≡ length circuit.now.latches }
    requires row { length row.now ≡ length circuit.now.inputs }
    ensures { IfOk result (Advances circuit.now signals.now.lits state.old row.now state.new) }
{
    let values = step_values(alloc, circuit, state, row)?;
    if !is_legal(circuit, &values) {
        return Ok(None);
    }
    *state = next_state(alloc, circuit, &values)?;
    Ok(Some(goal_of(signals, &values)))
}

/// Gives a lane its bits of these words as the next row. A lane that died stays where it was.
pub(crate) fn step_lane(
    alloc: Global,
    circuit: &Circuit,
    signals: &Signals,
    lane: &mut LaneWalk,
    words: &[u64],
    visit: Visit,
    visits: &mut FirstVisits,
) -> Result<(), OutOfMemory>
    requires signals { signals.now.circuit ≡ circuit.now }
    requires words { length words.now ≡ length circuit.now.inputs }
    requires place { visit.lane < 64 }
    requires lane { IsReady circuit.now signals.now.lits visit.step lane.old }
    requires goals { visits.old.goals ≡ 2 ^ length signals.now.lits }
    ensures lane { OnOk result (WalksOn circuit.now signals.now.lits words.now visit.lane visit.step lane.old lane.new) }
    ensures goals { visits.new.goals ≡ visits.old.goals }
    ensures visits { OnOk result (Notes circuit.now signals.now.lits words.now visit.lane visit.step lane.old visits.old.visits visits.new.visits) }
{
    circuit.is_well_formed();
    if lane.lived < visit.step {
        return Ok(());
    }
    let row = lane_row(alloc, words, visit.lane)?;
    let Some(goal) = advance(alloc, circuit, signals, &mut lane.state, &row)? else {
        return Ok(());
    };
    lane.lived += 1;
    lane.visits.add(Visit { goal, ..visit })?;
    visits.add(Visit { goal, ..visit })?;
    Ok(())
}
