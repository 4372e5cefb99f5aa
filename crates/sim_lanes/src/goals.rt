//! The goals that the lanes show at a step.

ghost use Rattle.std.specs.Prelude.{◌≡◌, ◌+◌, ◌^◌, ◌<◌, length, OnOk, IfOk};
ghost use Rattle.sim_lanes.specs.Lanes.{AddsMarks, AddsVisits, NotesLane};

use crate::masks::lanes_of_goal;
use aig_model::{Circuit, Signals};
use ketch_base::OutOfMemory;
use sim_batch::lane_bit;
use sim_walk::{FirstVisits, Visit};

/// Notes the goal of the visit's lane, if this lane is in `rest`, and gives the lanes of `rest` that show other goals.
fn note_lane(
    signals: &Signals,
    values: &[u64],
    rest: u64,
    visit: Visit,
    seen: &mut [u64],
    visits: &mut FirstVisits,
) -> Result<u64, OutOfMemory>
    requires size { length values.now ≡ signals.now.circuit.top + 1 }
    requires lane { visit.lane < 64 }
    requires seen { length seen.old ≡ 2 ^ length signals.now.lits }
    requires goals { visits.old.goals ≡ 2 ^ length signals.now.lits }
    ensures goals { visits.new.goals ≡ visits.old.goals }
    ensures notes { IfOk result (λ left. NotesLane signals.now.lits values.now rest left visit seen.old seen.new visits.old.visits visits.new.visits) }
{
    if !lane_bit(rest, visit.lane) {
        return Ok(rest);
    }
    let shown = lanes_of_goal(signals, values, rest, visit.lane);
    seen[shown.goal as usize] |= shown.lanes;
    visits.add(Visit {
        goal: shown.goal,
        ..visit
    })?;
    Ok(rest & !shown.lanes)
}

/// Notes the goals of all living lanes.
pub(crate) fn note_goals(
    circuit: &Circuit,
    signals: &Signals,
    values: &[u64],
    live: u64,
    step: u32,
    seen: &mut [u64],
    visits: &mut FirstVisits,
) -> Result<(), OutOfMemory>
    requires signals { signals.now.circuit ≡ circuit.now }
    requires size { length values.now ≡ circuit.now.top + 1 }
    requires seen { length seen.old ≡ 2 ^ length signals.now.lits }
    requires goals { visits.old.goals ≡ 2 ^ length signals.now.lits }
    ensures goals { visits.new.goals ≡ visits.old.goals }
    ensures marks { OnOk result (AddsMarks signals.now.lits values.now live seen.old seen.new) }
    ensures visits { OnOk result (AddsVisits circuit.now signals.now.lits values.now live step visits.old.visits visits.new.visits) }
{
    circuit.is_well_formed();
    let mut rest = live;
    for lane in 0..64u32 {
        let visit = Visit {
            goal: 0,
            lane,
            step,
        };
        rest = note_lane(signals, values, rest, visit, seen, visits)?;
    }
    Ok(())
}
