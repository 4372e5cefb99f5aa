//! The frames of a circuit, with what reads them.

ghost use Rattle.std.specs.Prelude.{◌≡◌, ◌≤◌, ◌+◌, [], map, length, get_or, IfOk};
ghost use Rattle.ketch_base.specs.Exactly.{ErrExactly};
ghost use Rattle.cnf_base.specs.Meaning.{IsModel};
ghost use Rattle.aig_model.specs.Literal.{var};
ghost use Rattle.aig_model.specs.Meaning.{input_values, latch_values};
ghost use Rattle.unroll.specs.Starts.{IsStart};
ghost use Rattle.unroll.specs.Frames.{AreTooLarge, frames_formula, lit_at};
ghost use Rattle.unroll.specs.Laws.{AreRun, frames_of};

use crate::cert::latch_lits;
use crate::fault::FrameFault;
use crate::frame::{are_too_large, frames_formula};
use crate::lits::lit_after;
use crate::start::Start;
use crate::trace::trace_by_lits;
use aig_model::{Bits, Circuit, Lit, Trace};
use cnf_base::{CnfLit, Formula};
use ketch_base::OutOfMemory;
use std::alloc::Global;
use std::marker::Model;
use std::snapshot::Snapshot;

/// The formula of a circuit's steps, and the literals of the circuit by which a trace is read from its models.
#[derive(Drop)]
pub struct Unrolled {
    formula: Formula,
    latches: Vec<Lit>,
    inputs: Vec<Lit>,
    width: u32,
    last: u32,
    circuit: Snapshot<Circuit>,
    start: Snapshot<Start>,
}

impl Model for Unrolled {
    ghost use Rattle.unroll.specs.Unrolling.{Unrolling, IsKept};

    ghost Value = { Unrolling };

    ghost view = { λ u. record { circuit = u.circuit.value; start = u.start.value; last = u.last } };

    ghost invariant = { λ u. IsKept (record { circuit = u.circuit.value; start = u.start.value; last = u.last }) u.formula u.latches.items u.inputs.items u.width };
}

fn input_lits(alloc: Global, circuit: &Circuit) -> Result<Vec<Lit>, OutOfMemory>
    ensures { IfOk result (λ lits. lits.items ≡ circuit.now.inputs) }
{
    let lits = Vec::from_slice(alloc, circuit.inputs().as_slice())?;
    Ok(lits)
}

/// The steps 0 to `steps`, from a state that the start allows.
pub fn frames(
    alloc: Global,
    circuit: &Circuit,
    start: &Start,
    steps: u32,
) -> Result<Unrolled, FrameFault>
    requires { IsStart circuit.now start.now }
    ensures value { IfOk result (λ unrolled. unrolled ≡ record { circuit = circuit.now; start = start.now; last = steps }) }
    ensures too_large { ErrExactly FrameFault.OutOfMemory result FrameFault.TooLarge (AreTooLarge circuit.now steps) }
{
    circuit.is_well_formed();
    if are_too_large(circuit, steps) {
        return Err(FrameFault::TooLarge);
    }
    let latches = latch_lits(alloc, circuit)?;
    let inputs = input_lits(alloc, circuit)?;
    let formula = frames_formula(alloc, circuit, start, steps)?;
    Ok(Unrolled {
        formula,
        latches,
        inputs,
        width: circuit.top() + 1,
        last: steps,
        circuit: Snapshot::of(circuit),
        start: Snapshot::of(start),
    })
}

impl Unrolled {
    pub fn formula(&self) -> &Formula
        ensures { result.now ≡ frames_formula self.now.circuit self.now.start self.now.last }
    {
        &self.formula
    }

    /// The literal of the formula for a literal of the circuit at a step.
    pub fn lit_at(&self, lit: Lit, step: u32) -> CnfLit
        requires var { var lit ≤ self.now.circuit.top }
        requires step { step ≤ self.now.last }
        ensures { result ≡ lit_at self.now.circuit step lit }
    {
        lit_after(step * self.width, lit)
    }

    /// The start and the rows of inputs of the run that a model of the formula is.
    pub fn trace_of(&self, alloc: Global, model: &Bits) -> Result<Trace, OutOfMemory>
        requires { IsModel (frames_formula self.now.circuit self.now.start self.now.last) model.now }
        ensures start { IfOk result (λ trace. trace.start ≡ latch_values self.now.circuit (get_or (frames_of self.now.circuit self.now.last model.now) 0 [])) }
        ensures width { IfOk result (λ trace. trace.rows.width ≡ length self.now.circuit.inputs) }
        ensures rows { IfOk result (λ trace. trace.rows.rows ≡ map (input_values self.now.circuit) (frames_of self.now.circuit self.now.last model.now)) }
    {
        let trace = trace_by_lits(
            alloc,
            model,
            self.width,
            self.last,
            &self.latches,
            &self.inputs,
        )?;
        Ok(trace)
    }
}
