//! The formula of a search: a run that ends in a goal that is not blocked.

ghost use Rattle.std.specs.Prelude.{◌≡◌, ◌≤◌, ◌<◌, ◌+◌, ◌^◌, [], All, map, length, IfOk, OnOk};
ghost use Rattle.ketch_base.specs.Exactly.{ErrExactly};
ghost use Rattle.unroll.specs.Starts.{IsStart};
ghost use Rattle.unroll.specs.Frames.{AreTooLarge, vars_before};
ghost use Rattle.unroll.specs.Queries.{blocking_clause, search_formula};
ghost use Rattle.unroll.specs.Building.{HasLit, with_clauses};

use crate::clauses::add;
use crate::fault::FrameFault;
use crate::frame::{are_too_large, frames_formula};
use crate::goal::goal_lits;
use crate::start::Start;
use aig_model::{Circuit, Goals, Lit, Signals};
use cnf_base::{CnfLit, Formula};
use ketch_base::OutOfMemory;
use std::alloc::Global;

/// The goal is not shown in the step that has so many variables before it.
fn blocking_clause(
    alloc: Global,
    before: u32,
    lits: &[Lit],
    goal: u32,
) -> Result<Vec<CnfLit>, OutOfMemory>
    requires { All (HasLit 4000000 before) lits.now }
    ensures { IfOk result (λ clause. clause.items ≡ blocking_clause before lits.now goal) }
{
    let shown = goal_lits(alloc, before, lits, goal)?;
    let mut clause = Vec::with_capacity(alloc, shown.len())?;
    for lit in &shown {
        clause.push(lit.negation())?;
    }
    Ok(clause)
}

pub(crate) fn block(
    alloc: Global,
    formula: &mut Formula,
    before: u32,
    lits: &[Lit],
    goals: &[u32],
) -> Result<(), OutOfMemory>
    requires few { formula.old.vars ≤ 4000000 }
    requires lits { All (HasLit formula.old.vars before) lits.now }
    ensures { OnOk result (formula.new ≡ with_clauses formula.old (map (blocking_clause before lits.now) goals.now)) }
{
    for goal in goals {
        let clause = blocking_clause(alloc, before, lits, *goal)?;
        add(alloc, formula, &clause)?;
    }
    Ok(())
}

/// Values satisfy the formula exactly where they are a run of the steps 0 to `step`, from a state that the start
/// allows, that ends in a goal that is not blocked.
pub fn search_formula(
    alloc: Global,
    circuit: &Circuit,
    signals: &Signals,
    start: &Start,
    step: u32,
    blocked: &Goals,
) -> Result<Formula, FrameFault>
    requires circuit { signals.now.circuit ≡ circuit.now }
    requires start { IsStart circuit.now start.now }
    ensures value { IfOk result (λ formula. formula ≡ search_formula circuit.now signals.now.lits start.now step blocked.now) }
    ensures too_large { ErrExactly FrameFault.OutOfMemory result FrameFault.TooLarge (AreTooLarge circuit.now step) }
{
    if are_too_large(circuit, step) {
        return Err(FrameFault::TooLarge);
    }
    let mut formula = frames_formula(alloc, circuit, start, step)?;
    let before = step * (circuit.top() + 1);
    let lits = signals.lits().as_slice();
    block(alloc, &mut formula, before, lits, blocked.as_slice())?;
    Ok(formula)
}
