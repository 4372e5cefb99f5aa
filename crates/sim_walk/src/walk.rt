//! Walks from reset.

ghost use Rattle.std.specs.Prelude.{◌≡◌, ◌↔◌, ◌+◌, length, replicate, IfOk, IfSome, IsSome};
ghost use Rattle.aig_model.specs.Meaning.{IsLegal, goal_of};
ghost use Rattle.sim_walk.specs.Zero.{first_value, zero_state, zero_row, AreZeroVisits, IsZeroTrace, ShowsVisit, VisitsAt};

use crate::first_visits::FirstVisits;
use crate::options::Options;
use crate::visit::{Visit, Visits};
use aig_eval::{goal_of, is_legal, next_state, step_values};
use aig_model::{Bits, Circuit, Reset, Rows, Signals, Trace};
use ketch_base::OutOfMemory;
use std::alloc::Global;

fn first_value(reset: Reset) -> bool
    ensures { result ≡ first_value reset }
{
    match reset {
        Reset::Zero | Reset::Free => false,
        Reset::One => true,
    }
}

/// The reset state in which the free latches are 0.
fn zero_state(alloc: Global, circuit: &Circuit) -> Result<Bits, OutOfMemory>
    ensures { IfOk result (λ state. state ≡ zero_state circuit.now) }
{
    let mut state = Bits::new(alloc);
    for latch in circuit.latches().as_slice() {
        state.push(first_value(latch.reset))?;
    }
    Ok(state)
}

fn zero_row(alloc: Global, circuit: &Circuit) -> Result<Bits, OutOfMemory>
    ensures { IfOk result (λ row. row ≡ zero_row circuit.now) }
{
    let row = Bits::all_false(alloc, circuit.inputs().len())?;
    Ok(row)
}

/// The rows of inputs of the zero walk, so many.
fn zero_rows(alloc: Global, circuit: &Circuit, count: u64) -> Result<Rows, OutOfMemory>
    ensures width { IfOk result (λ rows. rows.width ≡ length circuit.now.inputs) }
    ensures rows { IfOk result (λ rows. rows.rows ≡ replicate count (zero_row circuit.now)) }
{
    circuit.is_well_formed();
    let row = zero_row(alloc, circuit)?;
    let mut rows = Rows::new(alloc, row.len() as u32);
    for _done in 0..count {
        rows.push(&row)?;
    }
    Ok(rows)
}

/// The goal that an assignment shows, if it is legal.
fn legal_goal(circuit: &Circuit, signals: &Signals, values: &Bits) -> Option<u32>
    requires signals { signals.now.circuit ≡ circuit.now }
    requires size { length values.now ≡ circuit.now.top + 1 }
    ensures legal { IsSome result ↔ IsLegal circuit.now values.now }
    ensures goal { IfSome result (λ goal. goal ≡ goal_of signals.now.lits values.now) }
{
    if is_legal(circuit, values) {
        Some(goal_of(signals, values))
    } else {
        None
    }
}

/// The goals that the zero walk visits, each at its first step. It goes no further once it has
/// visited every goal.
pub fn zero_walk(
    alloc: Global,
    circuit: &Circuit,
    signals: &Signals,
    options: &Options,
) -> Result<Visits, OutOfMemory>
    requires { signals.now.circuit ≡ circuit.now }
    ensures { IfOk result (AreZeroVisits circuit.now signals.now.lits options.now.length) }
{
    circuit.is_well_formed();
    let row = zero_row(alloc, circuit)?;
    let mut state = zero_state(alloc, circuit)?;
    let mut visits = FirstVisits::new(alloc, signals.goals())?;
    for step in 0..options.length {
        let values = step_values(alloc, circuit, &state, &row)?;
        let Some(goal) = legal_goal(circuit, signals, &values) else {
            return Ok(visits.into_visits());
        };
        visits.add(Visit {
            goal,
            lane: 0,
            step,
        })?;
        if visits.is_complete() {
            return Ok(visits.into_visits());
        }
        state = next_state(alloc, circuit, &values)?;
    }
    Ok(visits.into_visits())
}

/// The trace that leads the zero walk to a step that it visits.
pub fn zero_trace(
    alloc: Global,
    circuit: &Circuit,
    signals: &Signals,
    options: &Options,
    step: u32,
) -> Result<Trace, OutOfMemory>
    requires signals { signals.now.circuit ≡ circuit.now }
    requires visited { VisitsAt circuit.now signals.now.lits options.now.length step }
    ensures trace { IfOk result (IsZeroTrace circuit.now step) }
    ensures shows { IfOk result (ShowsVisit circuit.now signals.now.lits options.now.length step) }
{
    let start = zero_state(alloc, circuit)?;
    let rows = zero_rows(alloc, circuit, step as u64 + 1)?;
    Ok(Trace { start, rows })
}
