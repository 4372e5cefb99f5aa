//! When a batch is over.

ghost use Rattle.std.specs.Prelude.{◌≡◌, ◌↔◌, ◌≤◌, ◌<◌, ◌+◌, List, length, All, AllPairs, IsTrue};
ghost use Rattle.sim_walk.specs.Walk.{Lane, IsEarlier};
ghost use Rattle.sim_walk.specs.declared.visit.Visit.{Visit};
ghost use Rattle.sim_batch.specs.Ends.{IsOver};
ghost use Rattle.sim_batch.specs.Steps.{VisitsBefore};
ghost use Rattle.sim_lanes.specs.Lanes.{AreLanesAt};

use crate::lanes::LaneWords;
use aig_model::{Circuit, Signals};
use sim_walk::Visits;

/// Whether there were `stall` steps, and the last `stall` of them have no visit. The last visit tells, since they stand in order.
fn is_stalled(visits: &Visits, stall: u32, step: u32) -> bool
    ensures { AllPairs (λ (v w : Visit). IsEarlier v.step v.lane w.step w.lane) visits.now
        → IsTrue result ↔ ((stall ≤ step + 1) × All (λ (v : Visit). v.step + stall ≤ step) visits.now) }
{
    if u64::from(stall) > u64::from(step) + 1 {
        return false;
    }
    let count = visits.len();
    if count == 0 {
        return true;
    }
    u64::from(visits.get(count - 1).step) + u64::from(stall) <= u64::from(step)
}

/// Whether a batch is over after the step that its lanes and visits took last.
pub(crate) fn is_over(
    circuit: &Circuit,
    signals: &Signals,
    lanes: &LaneWords,
    visits: &Visits,
    stall: u32,
    step: u32,
) -> bool
    ensures { (drives : List Lane) → length drives ≡ 64 → AreLanesAt circuit.now signals.now.lits drives (step + 1) lanes.now
        → VisitsBefore circuit.now signals.now.lits drives (step + 1) 0 visits.now
        → IsTrue result ↔ IsOver circuit.now signals.now.lits drives stall step }
{
    circuit.is_well_formed();
    lanes.live == 0 || is_stalled(visits, stall, step)
}
