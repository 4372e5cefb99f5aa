//! The frames, one after another.

ghost use Rattle.std.specs.Prelude.{◌≡◌, ◌≤◌, ◌+◌, ◌↔◌, IsTrue, IfOk, OnOk};
ghost use Rattle.unroll.specs.Starts.{IsStart};
ghost use Rattle.unroll.specs.Frames.{AreTooLarge, frame_clauses, frames_formula, undefined_vars, vars_before};
ghost use Rattle.unroll.specs.Building.{with_clauses};

use crate::entry::add_entry;
use crate::start::Start;
use crate::step::add_step;
use crate::undefined::undefined_vars;
use aig_model::Circuit;
use cnf_base::Formula;
use ketch_base::OutOfMemory;
use std::alloc::Global;

pub(crate) fn add_frame(
    alloc: Global,
    formula: &mut Formula,
    circuit: &Circuit,
    start: &Start,
    undefined: &[u32],
    step: u32,
) -> Result<(), OutOfMemory>
    requires few { formula.old.vars ≤ 4000000 }
    requires room { vars_before circuit.now (step + 1) ≤ formula.old.vars }
    requires start { IsStart circuit.now start.now }
    requires undefined { undefined.now ≡ undefined_vars circuit.now }
    ensures { OnOk result (formula.new ≡ with_clauses formula.old (frame_clauses circuit.now start.now step)) }
{
    let before = step * (circuit.top() + 1);
    add_step(alloc, formula, circuit, undefined, before)?;
    add_entry(alloc, formula, circuit, start, step, before)?;
    Ok(())
}

pub(crate) fn are_too_large(circuit: &Circuit, last: u32) -> bool
    ensures { IsTrue result ↔ AreTooLarge circuit.now last }
{
    (u64::from(last) + 1) * (u64::from(circuit.top()) + 1) > 4_000_000
}

/// The steps 0 to `last`.
pub(crate) fn all_frames(
    alloc: Global,
    circuit: &Circuit,
    start: &Start,
    undefined: &[u32],
    last: u32,
) -> Result<Formula, OutOfMemory>
    requires few { vars_before circuit.now (last + 1) ≤ 4000000 }
    requires start { IsStart circuit.now start.now }
    requires undefined { undefined.now ≡ undefined_vars circuit.now }
    ensures { IfOk result (λ formula. formula ≡ frames_formula circuit.now start.now last) }
{
    let mut formula = Formula::new(alloc, (last + 1) * (circuit.top() + 1));
    for step in 0..last + 1 {
        add_frame(alloc, &mut formula, circuit, start, undefined, step)?;
    }
    Ok(formula)
}

pub(crate) fn frames_formula(
    alloc: Global,
    circuit: &Circuit,
    start: &Start,
    last: u32,
) -> Result<Formula, OutOfMemory>
    requires few { vars_before circuit.now (last + 1) ≤ 4000000 }
    requires start { IsStart circuit.now start.now }
    ensures { IfOk result (λ formula. formula ≡ frames_formula circuit.now start.now last) }
{
    let undefined = undefined_vars(alloc, circuit)?;
    let formula = all_frames(alloc, circuit, start, &undefined, last)?;
    Ok(formula)
}
