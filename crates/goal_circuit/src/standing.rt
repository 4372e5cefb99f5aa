//! The literals that stand for signals.

ghost use Rattle.std.specs.Prelude.{◌≡◌, ◌==◌, map, nat_eq, IfOk};
ghost use Rattle.std.specs.List.{list_any};
ghost use Rattle.aig_model.specs.Literal.{var};
ghost use Rattle.aig_model.specs.WellFormed.{defined};
ghost use Rattle.goal_circuit.specs.GoalCircuit.{standing_literal};

use aig_model::{Circuit, Lit, Lits};
use ketch_base::OutOfMemory;
use std::alloc::Global;

fn is_input(circuit: &Circuit, variable: u32) -> bool
    ensures { result ≡ list_any (λ v. v == variable) (map var circuit.now.inputs) }
{
    let inputs = circuit.inputs().as_slice();
    inputs.iter().map(|lit| lit.var()).any(|v| v == variable)
}

fn is_latch(circuit: &Circuit, variable: u32) -> bool
    ensures { result ≡ list_any (λ v. v == variable) (map (λ l. var l.lit) circuit.now.latches) }
{
    let latches = circuit.latches().as_slice();
    latches
        .iter()
        .map(|latch| latch.lit.var())
        .any(|v| v == variable)
}

fn is_gate(circuit: &Circuit, variable: u32) -> bool
    ensures { result ≡ list_any (λ v. v == variable) (map (λ g. var g.lhs) circuit.now.gates) }
{
    let gates = circuit.gates().as_slice();
    gates
        .iter()
        .map(|gate| gate.lhs.var())
        .any(|v| v == variable)
}

fn is_defined(circuit: &Circuit, variable: u32) -> bool
    ensures { result ≡ list_any (λ v. v == variable) (defined circuit.now) }
{
    is_input(circuit, variable) || is_latch(circuit, variable) || is_gate(circuit, variable)
}

/// The signal's own literal, or the constant of its sign where nothing defines its variable.
fn standing_literal(circuit: &Circuit, lit: Lit) -> Lit
    ensures { result ≡ standing_literal circuit.now lit }
{
    if lit.var() == 0 || is_defined(circuit, lit.var()) {
        lit
    } else {
        Lit::new(lit.value() % 2)
    }
}

/// Walks the circuit once for each signal.
pub fn standing_literals(
    alloc: Global,
    circuit: &Circuit,
    lits: &[Lit],
) -> Result<Lits, OutOfMemory>
    ensures { IfOk result (λ standing. standing ≡ map (standing_literal circuit.now) lits.now) }
{
    let standing = lits
        .iter()
        .map(|lit| standing_literal(circuit, *lit))
        .collect(alloc)?;
    Ok(Lits::from_vec(standing))
}
