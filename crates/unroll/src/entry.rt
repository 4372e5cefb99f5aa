//! The latches at a step: at step 0 as the start says, and later as the step before says.

ghost use Rattle.std.specs.Prelude.{◌≡◌, ◌≤◌, ◌+◌, ◌*◌, ◌<◌, All, length, suc, OnOk};
ghost use Rattle.std.specs.List.{flat_map};
ghost use Rattle.aig_model.specs.WellFormed.{latch_lits};
ghost use Rattle.aig_model.specs.declared.parts.Latch.{Latch};
ghost use Rattle.unroll.specs.Starts.{IsStart};
ghost use Rattle.unroll.specs.Frames.{entry_clauses, next_clauses, reset_clauses, start_clauses, state_clauses, vars_before};
ghost use Rattle.unroll.specs.Building.{HasLatch, HasLit, with_clauses};

use crate::clauses::add;
use crate::lits::{lit_after, lit_with_value};
use crate::start::Start;
use aig_model::{Bits, Circuit, Latch, Lit, Reset};
use cnf_base::Formula;
use ketch_base::OutOfMemory;
use std::alloc::Global;

fn add_reset(
    alloc: Global,
    formula: &mut Formula,
    lit: Lit,
    reset: Reset,
) -> Result<(), OutOfMemory>
    requires few { formula.old.vars ≤ 4000000 }
    requires lit { HasLit formula.old.vars 0 lit }
    ensures { OnOk result (formula.new ≡ with_clauses formula.old (reset_clauses lit reset)) }
{
    let lit = lit_after(0, lit);
    match reset {
        Reset::Zero => {
            add(alloc, formula, &[lit.negation()])?;
            Ok(())
        }
        Reset::One => {
            add(alloc, formula, &[lit])?;
            Ok(())
        }
        Reset::Free => Ok(()),
    }
}

fn add_resets(alloc: Global, formula: &mut Formula, latches: &[Latch]) -> Result<(), OutOfMemory>
    requires few { formula.old.vars ≤ 4000000 }
    requires latches { All (λ l. HasLit formula.old.vars 0 l.lit) latches.now }
    ensures { OnOk result (formula.new ≡ with_clauses formula.old (flat_map (λ l. reset_clauses l.lit l.reset) latches.now)) }
{
    for latch in latches {
        add_reset(alloc, formula, latch.lit, latch.reset)?;
    }
    Ok(())
}

fn add_state(
    alloc: Global,
    formula: &mut Formula,
    latches: &[Latch],
    given: &Bits,
) -> Result<(), OutOfMemory>
    requires few { formula.old.vars ≤ 4000000 }
    requires latches { All (λ l. HasLit formula.old.vars 0 l.lit) latches.now }
    requires size { length given.now ≡ length latches.now }
    ensures { OnOk result (formula.new ≡ with_clauses formula.old (state_clauses (latch_lits latches.now) given.now)) }
{
    for (place, latch) in latches.iter().enumerate() {
        let lit = lit_with_value(0, latch.lit, given.get(place));
        add(alloc, formula, &[lit])?;
    }
    Ok(())
}

fn add_start(
    alloc: Global,
    formula: &mut Formula,
    circuit: &Circuit,
    start: &Start,
) -> Result<(), OutOfMemory>
    requires few { formula.old.vars ≤ 4000000 }
    requires room { circuit.now.top + 1 ≤ formula.old.vars }
    requires start { IsStart circuit.now start.now }
    ensures { OnOk result (formula.new ≡ with_clauses formula.old (start_clauses circuit.now start.now)) }
{
    circuit.is_well_formed();
    let latches = circuit.latches().as_slice();
    match start {
        Start::Any => Ok(()),
        Start::Reset => {
            add_resets(alloc, formula, latches)?;
            Ok(())
        }
        Start::State(given) => {
            add_state(alloc, formula, latches, given)?;
            Ok(())
        }
    }
}

/// The latch has the value that its next literal has at the earlier step.
fn add_next(
    alloc: Global,
    formula: &mut Formula,
    earlier: u32,
    before: u32,
    latch: &Latch,
) -> Result<(), OutOfMemory>
    requires few { formula.old.vars ≤ 4000000 }
    requires latch { HasLatch formula.old.vars earlier before latch.now }
    ensures { OnOk result (formula.new ≡ with_clauses formula.old (next_clauses earlier before latch.now)) }
{
    let own = lit_after(before, latch.lit);
    let next = lit_after(earlier, latch.next);
    add(alloc, formula, &[own.negation(), next])?;
    add(alloc, formula, &[own, next.negation()])?;
    Ok(())
}

fn add_nexts(
    alloc: Global,
    formula: &mut Formula,
    earlier: u32,
    before: u32,
    latches: &[Latch],
) -> Result<(), OutOfMemory>
    requires few { formula.old.vars ≤ 4000000 }
    requires latches { All (HasLatch formula.old.vars earlier before) latches.now }
    ensures { OnOk result (formula.new ≡ with_clauses formula.old (flat_map (next_clauses earlier before) latches.now)) }
{
    for latch in latches {
        add_next(alloc, formula, earlier, before, latch)?;
    }
    Ok(())
}

/// `before` is the number of variables before the step.
pub(crate) fn add_entry(
    alloc: Global,
    formula: &mut Formula,
    circuit: &Circuit,
    start: &Start,
    step: u32,
    before: u32,
) -> Result<(), OutOfMemory>
    requires few { formula.old.vars ≤ 4000000 }
    requires before { before ≡ vars_before circuit.now step }
    requires room { vars_before circuit.now (step + 1) ≤ formula.old.vars }
    requires start { IsStart circuit.now start.now }
    ensures { OnOk result (formula.new ≡ with_clauses formula.old (entry_clauses circuit.now start.now step)) }
{
    circuit.is_well_formed();
    if step == 0 {
        add_start(alloc, formula, circuit, start)?;
    } else {
        let earlier = before - (circuit.top() + 1);
        add_nexts(
            alloc,
            formula,
            earlier,
            before,
            circuit.latches().as_slice(),
        )?;
    }
    Ok(())
}
