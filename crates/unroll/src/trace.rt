//! The trace of a run: its start and its rows of inputs, read from values of all steps.

ghost use Rattle.std.specs.Prelude.{◌≡◌, ◌≤◌, ◌<◌, ◌+◌, ◌*◌, ◌^◌, [], All, map, take, drop, length, get_or, IfOk};
ghost use Rattle.aig_model.specs.Literal.{var, value_of};
ghost use Rattle.aig_model.specs.Table.{rows_of};
ghost use Rattle.aig_model.specs.Meaning.{input_values, latch_values};
ghost use Rattle.unroll.specs.Frames.{vars_before};
ghost use Rattle.unroll.specs.Laws.{frames_of};

use crate::cert::latch_lits;
use aig_model::{Bits, Circuit, Lit, Rows, Trace};
use ketch_base::OutOfMemory;
use std::alloc::Global;

/// The literal's value in the step that has so many values before it and `width` of its own.
fn value_at(model: &Bits, before: usize, width: u32, lit: Lit) -> bool
    requires few { length model.now ≤ 4000000 }
    requires room { before + width ≤ length model.now }
    requires lit { var lit < width }
    ensures { result ≡ value_of (take width (drop before model.now)) lit }
{
    let own = model.get(before + lit.var() as usize);
    if lit.is_negated() { !own } else { own }
}

fn values_at(
    alloc: Global,
    model: &Bits,
    before: usize,
    width: u32,
    lits: &[Lit],
) -> Result<Bits, OutOfMemory>
    requires few { length model.now ≤ 4000000 }
    requires room { before + width ≤ length model.now }
    requires lits { All (λ lit. var lit < width) lits.now }
    ensures { IfOk result (λ values. values ≡ map (value_of (take width (drop before model.now))) lits.now) }
{
    let mut values = Bits::new(alloc);
    for lit in lits {
        values.push(value_at(model, before, width, *lit))?;
    }
    Ok(values)
}

#[tactic(auto, using(crate::proofs::Rows::no_rows))]
fn input_rows(
    alloc: Global,
    model: &Bits,
    width: u32,
    last: u32,
    inputs: &[Lit],
) -> Result<Rows, OutOfMemory>
    requires size { length model.now ≡ (last + 1) * width }
    requires few { length model.now ≤ 4000000 }
    requires some { 0 < width }
    requires inputs { All (λ lit. var lit < width) inputs.now }
    requires few_inputs { length inputs.now < 2 ^ 32 }
    ensures width { IfOk result (λ rows. rows.width ≡ length inputs.now) }
    ensures rows { IfOk result (λ rows. rows.rows ≡ map (λ a. map (value_of a) inputs.now) (rows_of width (last + 1) model.now)) }
{
    let mut rows = Rows::new(alloc, inputs.len() as u32);
    for step in 0..last + 1 {
        let before = step as usize * width as usize;
        let row = values_at(alloc, model, before, width, inputs)?;
        rows.push(&row)?;
    }
    Ok(rows)
}

/// The start and the rows of the steps 0 to `last`, from the values of all of them.
pub(crate) fn trace_by_lits(
    alloc: Global,
    model: &Bits,
    width: u32,
    last: u32,
    latches: &[Lit],
    inputs: &[Lit],
) -> Result<Trace, OutOfMemory>
    requires size { length model.now ≡ (last + 1) * width }
    requires few { length model.now ≤ 4000000 }
    requires some { 0 < width }
    requires latches { All (λ lit. var lit < width) latches.now }
    requires inputs { All (λ lit. var lit < width) inputs.now }
    requires few_inputs { length inputs.now < 2 ^ 32 }
    ensures start { IfOk result (λ trace. trace.start ≡ map (value_of (get_or (rows_of width (last + 1) model.now) 0 [])) latches.now) }
    ensures width { IfOk result (λ trace. trace.rows.width ≡ length inputs.now) }
    ensures rows { IfOk result (λ trace. trace.rows.rows ≡ map (λ a. map (value_of a) inputs.now) (rows_of width (last + 1) model.now)) }
{
    let start = values_at(alloc, model, 0, width, latches)?;
    let rows = input_rows(alloc, model, width, last, inputs)?;
    Ok(Trace { start, rows })
}

/// The start and the rows of inputs of a run of the steps 0 to `last`, from the values of all its variables.
pub fn trace_of_run(
    alloc: Global,
    circuit: &Circuit,
    last: u32,
    model: &Bits,
) -> Result<Trace, OutOfMemory>
    requires size { length model.now ≡ vars_before circuit.now (last + 1) }
    requires few { length model.now ≤ 4000000 }
    ensures start { IfOk result (λ trace. trace.start ≡ latch_values circuit.now (get_or (frames_of circuit.now last model.now) 0 [])) }
    ensures width { IfOk result (λ trace. trace.rows.width ≡ length circuit.now.inputs) }
    ensures rows { IfOk result (λ trace. trace.rows.rows ≡ map (input_values circuit.now) (frames_of circuit.now last model.now)) }
{
    circuit.is_well_formed();
    let latches = latch_lits(alloc, circuit)?;
    let inputs = circuit.inputs().as_slice();
    let trace = trace_by_lits(alloc, model, circuit.top() + 1, last, &latches, inputs)?;
    Ok(trace)
}
