//! What holds at each step.

ghost use Rattle.std.specs.Prelude.{◌≡◌, ◌≤◌, ◌+◌, OnOk};
ghost use Rattle.unroll.specs.Frames.{step_clauses, undefined_vars};
ghost use Rattle.unroll.specs.Building.{with_clauses};

use crate::clauses::{add_false, add_gates, add_true};
use aig_model::Circuit;
use cnf_base::Formula;
use ketch_base::OutOfMemory;
use std::alloc::Global;

/// Variable 0 and the undefined ones are false, the gates are solved, the constraints are true.
pub(crate) fn add_step(
    alloc: Global,
    formula: &mut Formula,
    circuit: &Circuit,
    undefined: &[u32],
    before: u32,
) -> Result<(), OutOfMemory>
    requires few { formula.old.vars ≤ 4000000 }
    requires room { before + circuit.now.top + 1 ≤ formula.old.vars }
    requires undefined { undefined.now ≡ undefined_vars circuit.now }
    ensures { OnOk result (formula.new ≡ with_clauses formula.old (step_clauses circuit.now before)) }
{
    circuit.is_well_formed();
    add_false(alloc, formula, before, &[0])?;
    add_false(alloc, formula, before, undefined)?;
    add_gates(alloc, formula, before, circuit.gates().as_slice())?;
    add_true(alloc, formula, before, circuit.constraints().as_slice())?;
    Ok(())
}
