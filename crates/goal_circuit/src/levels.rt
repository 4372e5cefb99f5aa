//! The gates of the levels: level j has a literal for each combination of the first j + 1 signals.

ghost use Rattle.std.specs.Prelude.{◌≡◌, ◌++◌, ◌+◌, ◌*◌, ◌<◌, ◌^◌, length, IfOk, OnOk};
ghost use Rattle.aig_model.specs.WellFormed.{left_sides};
ghost use Rattle.goal_circuit.specs.GoalCircuit.{conjunctions, level_gates, new_gates, goal_literals};

use aig_model::{AndGate, Gates, Lit, Lits};
use ketch_base::OutOfMemory;
use std::alloc::Global;

/// Appends a gate for each literal of a level, its conjunction with one literal. The gates have the variables
/// from `first` on.
fn push_conjunctions(
    gates: &mut Gates,
    level: &[Lit],
    right: Lit,
    first: u32,
) -> Result<(), OutOfMemory>
    requires { 2 * (first + length level.now) < 2 ^ 32 }
    ensures { OnOk result (gates.new ≡ gates.old ++ conjunctions first level.now right) }
{
    for (place, left) in level.iter().enumerate() {
        gates.push(AndGate {
            lhs: Lit::new(2 * (first + place as u32)),
            left: *left,
            right,
        })?;
    }
    Ok(())
}

fn push_level(gates: &mut Gates, level: &[Lit], signal: Lit, first: u32) -> Result<(), OutOfMemory>
    requires { 2 * (first + 2 * length level.now) < 2 ^ 32 }
    ensures { OnOk result (gates.new ≡ gates.old ++ level_gates first level.now signal) }
{
    push_conjunctions(gates, level, signal.negate(), first)?;
    push_conjunctions(gates, level, signal, first + level.len() as u32)?;
    Ok(())
}

fn left_sides_of(alloc: Global, gates: &[AndGate]) -> Result<Lits, OutOfMemory>
    ensures { IfOk result (λ sides. sides ≡ left_sides gates.now) }
{
    let sides = gates.iter().map(|gate| gate.lhs).collect(alloc)?;
    Ok(Lits::from_vec(sides))
}

/// Appends the gates of the level that follows, and answers its literals.
fn push_next_level(
    alloc: Global,
    gates: &mut Gates,
    level: &[Lit],
    signal: Lit,
    first: u32,
) -> Result<Lits, OutOfMemory>
    requires { 2 * (first + 2 * length level.now) < 2 ^ 32 }
    ensures gates { IfOk result (λ _. gates.new ≡ gates.old ++ level_gates first level.now signal) }
    ensures level { IfOk result (λ next. next ≡ left_sides (level_gates first level.now signal)) }
{
    let from = gates.len();
    push_level(gates, level, signal, first)?;
    let next = left_sides_of(alloc, &gates.as_slice()[from..])?;
    Ok(next)
}

/// Appends the gates of the levels of these signals, and answers the literals of the last level.
pub fn push_levels(
    alloc: Global,
    gates: &mut Gates,
    level: Lits,
    signals: &[Lit],
    first: u32,
) -> Result<Lits, OutOfMemory>
    requires { 2 * (first + length (new_gates first level signals.now)) < 2 ^ 32 }
    ensures gates { IfOk result (λ _. gates.new ≡ gates.old ++ new_gates first level signals.now) }
    ensures goals { IfOk result (λ goals. goals ≡ goal_literals first level signals.now) }
{
    let mut last = level;
    let mut var = first;
    for signal in signals {
        let next = push_next_level(alloc, gates, last.as_slice(), *signal, var)?;
        var += next.len() as u32;
        last = next;
    }
    Ok(last)
}
