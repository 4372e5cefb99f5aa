//! Clauses of literals of the circuit.

ghost use Rattle.std.specs.Prelude.{◌≡◌, ◌≤◌, [], ◌∷◌, All, OnOk};
ghost use Rattle.std.specs.List.{flat_map};
ghost use Rattle.cnf_base.specs.Meaning.{IsWithin};
ghost use Rattle.unroll.specs.Frames.{false_clauses, gate_clauses, true_clauses};
ghost use Rattle.unroll.specs.Building.{HasGate, HasLit, HasVar, with_clauses};

use crate::lits::{lit_after, var_after};
use aig_model::{AndGate, Lit};
use cnf_base::{Clause, CnfLit, Formula};
use ketch_base::OutOfMemory;
use std::alloc::Global;

pub(crate) fn add(alloc: Global, formula: &mut Formula, lits: &[CnfLit]) -> Result<(), OutOfMemory>
    requires { IsWithin formula.old.vars lits.now }
    ensures { OnOk result (formula.new ≡ with_clauses formula.old (lits.now ∷ [])) }
{
    formula.add(Clause::from_slice(alloc, lits)?)?;
    Ok(())
}

pub(crate) fn add_false(
    alloc: Global,
    formula: &mut Formula,
    before: u32,
    vars: &[u32],
) -> Result<(), OutOfMemory>
    requires few { formula.old.vars ≤ 4000000 }
    requires vars { All (HasVar formula.old.vars before) vars.now }
    ensures { OnOk result (formula.new ≡ with_clauses formula.old (false_clauses before vars.now)) }
{
    for var in vars {
        add(alloc, formula, &[var_after(before, *var).negation()])?;
    }
    Ok(())
}

pub(crate) fn add_true(
    alloc: Global,
    formula: &mut Formula,
    before: u32,
    lits: &[Lit],
) -> Result<(), OutOfMemory>
    requires few { formula.old.vars ≤ 4000000 }
    requires lits { All (HasLit formula.old.vars before) lits.now }
    ensures { OnOk result (formula.new ≡ with_clauses formula.old (true_clauses before lits.now)) }
{
    for lit in lits {
        add(alloc, formula, &[lit_after(before, *lit)])?;
    }
    Ok(())
}

fn add_gate(
    alloc: Global,
    formula: &mut Formula,
    before: u32,
    gate: &AndGate,
) -> Result<(), OutOfMemory>
    requires few { formula.old.vars ≤ 4000000 }
    requires gate { HasGate formula.old.vars before gate.now }
    ensures { OnOk result (formula.new ≡ with_clauses formula.old (gate_clauses before gate.now)) }
{
    let lhs = lit_after(before, gate.lhs);
    let left = lit_after(before, gate.left);
    let right = lit_after(before, gate.right);
    add(alloc, formula, &[lhs.negation(), left])?;
    add(alloc, formula, &[lhs.negation(), right])?;
    add(alloc, formula, &[lhs, left.negation(), right.negation()])?;
    Ok(())
}

pub(crate) fn add_gates(
    alloc: Global,
    formula: &mut Formula,
    before: u32,
    gates: &[AndGate],
) -> Result<(), OutOfMemory>
    requires few { formula.old.vars ≤ 4000000 }
    requires gates { All (HasGate formula.old.vars before) gates.now }
    ensures { OnOk result (formula.new ≡ with_clauses formula.old (flat_map (gate_clauses before) gates.now)) }
{
    for gate in gates {
        add_gate(alloc, formula, before, gate)?;
    }
    Ok(())
}
