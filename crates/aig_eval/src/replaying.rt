//! The replay of a trace.

ghost use Rattle.std.specs.Prelude.{ℕ, ◌≡◌, ◌+◌, ◌^◌, ◌<◌, ◌⊎◌, ◌↔◌, length, IfOk, IsErrOf, IsTrue, MatchResult};
ghost use Rattle.ketch_base.specs.First.{IsFirst};
ghost use Rattle.aig_model.specs.Meaning.{IsReset};
ghost use Rattle.aig_model.specs.Replays.{Shows};
ghost use Rattle.aig_eval.specs.Replay.{FailsAt, HasShape, MayStop, StartsWrong};

use crate::fault::ReplayFault;
use crate::goal::goal_of;
use crate::resets::first_wrong;
use crate::state::{is_legal, next_state};
use crate::step::step_values;
use aig_model::{Circuit, Signals, Trace};
use std::alloc::Global;

fn has_shape(circuit: &Circuit, trace: &Trace) -> bool
    ensures { IsTrue result ↔ HasShape circuit.now trace.now }
{
    trace.start.len() == circuit.latches().len()
        && trace.rows.width() as usize == circuit.inputs().len()
        && trace.rows.len() > 0
}

fn replay_rows(
    alloc: Global,
    circuit: &Circuit,
    signals: &Signals,
    trace: &Trace,
) -> Result<u32, ReplayFault>
    requires circuit { signals.now.circuit ≡ circuit.now }
    requires shape { HasShape circuit.now trace.now }
    requires reset { IsReset circuit.now trace.now.start }
    requires few { length trace.now.rows.rows < 2 ^ 32 }
    ensures { MatchResult result (Shows circuit.now signals.now.lits trace.now) (MayStop circuit.now trace.now) }
{
    circuit.is_well_formed();
    let mut state = trace.start.part(alloc, 0, trace.start.len())?;
    let mut goal = 0;
    for step in 0..trace.rows.len() {
        let row = trace.rows.get(alloc, step)?;
        let values = step_values(alloc, circuit, &state, &row)?;
        if !is_legal(circuit, &values) {
            return Err(ReplayFault::Constraint { step: step as u32 });
        }
        goal = goal_of(signals, &values);
        state = next_state(alloc, circuit, &values)?;
    }
    Ok(goal)
}

/// The goal that a trace shows: it starts in a reset state, its rows make a run from there, and the last
/// step shows the goal.
pub fn replay(
    alloc: Global,
    circuit: &Circuit,
    signals: &Signals,
    trace: &Trace,
) -> Result<u32, ReplayFault>
    requires circuit { signals.now.circuit ≡ circuit.now }
    requires few { length trace.now.rows.rows < 2 ^ 32 }

    ensures shows { IfOk result (Shows circuit.now signals.now.lits trace.now) }
    ensures shown { (goal : ℕ) → Shows circuit.now signals.now.lits trace.now goal
        → (result ≡ Ok goal) ⊎ IsErrOf result ReplayFault.OutOfMemory }

    // The faults, in the order in which they are tried.
    ensures shape { IsErrOf result ReplayFault.Shape ↔ ¬ HasShape circuit.now trace.now }
    ensures reset { (k : ℕ) → IsErrOf result (ReplayFault.NotReset k)
        ↔ (HasShape circuit.now trace.now × IsFirst (StartsWrong circuit.now trace.now.start) k) }
    ensures constraint { (t : ℕ) → IsErrOf result (ReplayFault.Constraint t)
        → HasShape circuit.now trace.now × IsReset circuit.now trace.now.start × IsFirst (FailsAt circuit.now trace.now) t }
    ensures fails { (t : ℕ) → HasShape circuit.now trace.now → IsReset circuit.now trace.now.start
        → IsFirst (FailsAt circuit.now trace.now) t
        → IsErrOf result (ReplayFault.Constraint t) ⊎ IsErrOf result ReplayFault.OutOfMemory }
{
    circuit.is_well_formed();
    if !has_shape(circuit, trace) {
        return Err(ReplayFault::Shape);
    }
    if let Some(latch) = first_wrong(circuit, &trace.start) {
        return Err(ReplayFault::NotReset { latch });
    }
    let goal = replay_rows(alloc, circuit, signals, trace)?;
    Ok(goal)
}
