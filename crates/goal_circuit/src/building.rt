//! The goal circuit.

ghost use Rattle.std.specs.Prelude.{◌≡◌, ◌++◌, ◌+◌, ◌-◌, ◌*◌, ◌^◌, ◌<◌, ◌≤◌, length, IfOk};
ghost use Rattle.ketch_base.specs.Exactly.{ErrExactly};
ghost use Rattle.aig_model.specs.WellFormed.{limit};
ghost use Rattle.aig_model.specs.SignalList.{IsSignals};
ghost use Rattle.goal_circuit.specs.GoalCircuit.{goal_parts, first_level, goal_gates, goal_bads};

use crate::copying::kept_parts;
use crate::fault::GoalFault;
use crate::levels::push_levels;
use crate::standing::standing_literals;
use aig_model::{Circuit, Lit, Lits, Parts, Signals};
use ketch_base::OutOfMemory;
use std::alloc::Global;

/// The negation of the first signal, then the signal.
fn first_level(alloc: Global, signal: Lit) -> Result<Lits, OutOfMemory>
    ensures { IfOk result (λ level. level ≡ first_level signal) }
{
    let mut level = Lits::new(alloc);
    level.push(signal.negate())?;
    level.push(signal)?;
    Ok(level)
}

/// Appends the gates of all goals to those of the circuit, and answers the goals' literals.
fn push_goals(
    alloc: Global,
    circuit: &Circuit,
    lits: &[Lit],
    parts: &mut Parts,
) -> Result<Lits, OutOfMemory>
    requires some { 0 < length lits.now }
    requires room { 2 * (circuit.now.top + 1 + length (goal_gates circuit.now lits.now)) < 2 ^ 32 }
    ensures gates { IfOk result (λ _. parts.new ≡ record parts.old { gates = parts.old.gates ++ goal_gates circuit.now lits.now }) }
    ensures goals { IfOk result (λ goals. goals ≡ goal_bads circuit.now lits.now) }
{
    let standing = standing_literals(alloc, circuit, lits)?;
    let standing = standing.as_slice();
    let level = first_level(alloc, standing[0])?;
    let goals = push_levels(
        alloc,
        &mut parts.gates,
        level,
        &standing[1..],
        circuit.top() + 1,
    )?;
    Ok(goals)
}

fn goal_parts(
    alloc: Global,
    circuit: &Circuit,
    lits: &[Lit],
    top: u32,
) -> Result<Parts, OutOfMemory>
    requires some { 0 < length lits.now }
    requires top { top ≡ circuit.now.top + length (goal_gates circuit.now lits.now) }
    requires few { top ≤ limit }
    ensures { IfOk result (λ parts. parts ≡ goal_parts circuit.now lits.now) }
{
    let mut parts = kept_parts(alloc, circuit, top)?;
    parts.bads = push_goals(alloc, circuit, lits, &mut parts)?;
    Ok(parts)
}

/// The circuit whose bad literal g is true exactly where the signals show goal g. It keeps inputs, latches,
/// constraints, gates and the names of the first three, and drops outputs and bad literals.
pub fn goal_circuit(
    alloc: Global,
    circuit: &Circuit,
    signals: &Signals,
) -> Result<Circuit, GoalFault>
    requires { signals.now.circuit ≡ circuit.now }
    ensures circuit { IfOk result (λ goals. goals ≡ goal_parts circuit.now signals.now.lits) }
    ensures too_large { ErrExactly GoalFault.OutOfMemory result GoalFault.TooLarge
        (limit < circuit.now.top + 2 ^ (length signals.now.lits + 1) - 4) }
{
    let lits = signals.lits();
    let top = circuit.top() + 2 * signals.goals() - 4;
    if top > 3_999_999 {
        return Err(GoalFault::TooLarge);
    }
    let parts = goal_parts(alloc, circuit, lits.as_slice(), top)?;
    Ok(Circuit::new(parts))
}
