//! All lanes of a batch, step by step.

ghost use Rattle.std.specs.Prelude.{◌≡◌, ◌^◌, length, map, option_copied, All, IfOk, OnOk};
ghost use Rattle.std.specs.List.{range_with_len};
ghost use Rattle.sim_batch.specs.Steps.{IsReady, StepsOn, first_walk};

use crate::lane::lane_start;
use crate::lane_walk::{LaneWalk, step_lane};
use crate::seed::Seed;
use aig_model::{Circuit, Signals};
use ketch_base::OutOfMemory;
use sim_walk::{FirstVisits, Visit};
use std::alloc::Global;

/// The 64 lanes before their first step; the words are those that the start takes.
pub(crate) fn first_lanes(
    alloc: Global,
    circuit: &Circuit,
    signals: &Signals,
    from: Option<&Seed>,
    words: &[u64],
) -> Result<Vec<LaneWalk>, OutOfMemory>
    ensures { IfOk result (λ lanes. lanes.items ≡
        map (first_walk circuit.now signals.now.lits (option_copied from.entry) words.now) (range_with_len 0 64)) }
{
    let mut lanes = Vec::new(alloc);
    for lane in 0..64u32 {
        let state = lane_start(alloc, circuit, from, words, lane)?;
        let visits = FirstVisits::new(alloc, signals.goals())?;
        lanes.push(LaneWalk {
            state,
            lived: 0,
            visits,
        })?;
    }
    Ok(lanes)
}

/// Moves all lanes on by one step, whose words these are.
pub(crate) fn step_lanes(
    alloc: Global,
    circuit: &Circuit,
    signals: &Signals,
    lanes: &mut Vec<LaneWalk>,
    words: &[u64],
    step: u32,
    visits: &mut FirstVisits,
) -> Result<(), OutOfMemory>
    requires signals { signals.now.circuit ≡ circuit.now }
    requires words { length words.now ≡ length circuit.now.inputs }
    requires size { length lanes.old.items ≡ 64 }
    requires lanes { All (IsReady circuit.now signals.now.lits step) lanes.old.items }
    requires goals { visits.old.goals ≡ 2 ^ length signals.now.lits }
    ensures size { length lanes.new.items ≡ 64 }
    ensures goals { visits.new.goals ≡ visits.old.goals }
    ensures steps { OnOk result
        (StepsOn circuit.now signals.now.lits words.now step lanes.old.items lanes.new.items visits.old.visits visits.new.visits) }
{
    for place in 0..lanes.len() {
        let visit = Visit {
            goal: 0,
            lane: place as u32,
            step,
        };
        step_lane(
            alloc,
            circuit,
            signals,
            &mut lanes[place],
            words,
            visit,
            visits,
        )?;
    }
    Ok(())
}
