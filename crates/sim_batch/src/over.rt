//! When a batch is over.

ghost use Rattle.std.specs.Prelude.{◌≡◌, ◌↔◌, ◌≤◌, ◌<◌, ◌+◌, List, length, All, Any, IsTrue};
ghost use Rattle.sim_walk.specs.Walk.{Lane};
ghost use Rattle.sim_walk.specs.declared.visit.Visit.{Visit};
ghost use Rattle.sim_batch.specs.Ends.{IsOver};
ghost use Rattle.sim_batch.specs.Steps.{AreWalks, VisitsBefore};
ghost use Rattle.sim_batch.specs.declared.lane_walk.LaneWalk.{LaneWalk};

use crate::lane_walk::LaneWalk;
use aig_model::{Circuit, Signals};
use sim_walk::Visits;

/// Whether some lane lived at a step, which was the last one so far.
fn some_lived(lanes: &[LaneWalk], step: u32) -> bool
    ensures { IsTrue result ↔ Any (λ (w : LaneWalk). step < w.lived) lanes.now }
{
    lanes.iter().any(|lane| step < lane.lived)
}

/// Whether there were `stall` steps, and the last `stall` of them have no visit.
fn is_stalled(visits: &Visits, stall: u32, step: u32) -> bool
    ensures { IsTrue result ↔ ((stall ≤ step + 1) × All (λ (v : Visit). v.step + stall ≤ step) visits.now) }
{
    u64::from(stall) <= u64::from(step) + 1
        && visits.as_slice().iter().all(|visit| u64::from(visit.step) + u64::from(stall)
            <= u64::from(step))
}

/// Whether a batch is over after the step that its lanes and visits took last.
pub(crate) fn is_over(
    circuit: &Circuit,
    signals: &Signals,
    lanes: &[LaneWalk],
    visits: &Visits,
    stall: u32,
    step: u32,
) -> bool
    ensures { (drives : List Lane) → length drives ≡ length lanes.now → AreWalks circuit.now signals.now.lits drives (step + 1) lanes.now
        → VisitsBefore circuit.now signals.now.lits drives (step + 1) 0 visits.now
        → IsTrue result ↔ IsOver circuit.now signals.now.lits drives stall step }
{
    circuit.is_well_formed();
    !some_lived(lanes, step) || is_stalled(visits, stall, step)
}
