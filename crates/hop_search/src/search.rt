//! The search.

ghost use Rattle.std.specs.Prelude.{◌≡◌, ◌≤◌, ◌<◌, ◌+◌, ◌^◌, [], All, map, length, get_or, IfOk, OnOk};
ghost use Rattle.ketch_base.specs.Exactly.{ErrExactly};
ghost use Rattle.aig_model.specs.Meaning.{goal_of, input_values, latch_values};
ghost use Rattle.unroll.specs.Starts.{IsStart};
ghost use Rattle.unroll.specs.Frames.{AreTooLarge, vars_before};
ghost use Rattle.unroll.specs.Laws.{frames_of};
ghost use Rattle.unroll.specs.Framing.{HasFrames, IsFraming};
ghost use Rattle.hop_search.specs.Answers.{IsHop};
ghost use Rattle.hop_search.specs.Framed.{Queries};

use crate::hop::Hop;
use aig_eval::goal_of;
use aig_model::{Bits, Circuit, Goals, Signals, Trace};
use ketch_base::OutOfMemory;
use sat_solver::{Answer, solve};
use std::alloc::Global;
use unroll::{FrameFault, FramedFormula, Start, trace_of_run};

/// The goal of the last step, and the trace, of the values of a run of the steps 0 to `step`.
fn goal_and_trace(
    alloc: Global,
    circuit: &Circuit,
    signals: &Signals,
    step: u32,
    model: &Bits,
) -> Result<(u32, Trace), OutOfMemory>
    requires circuit { signals.now.circuit ≡ circuit.now }
    requires size { length model.now ≡ vars_before circuit.now (step + 1) }
    requires few { length model.now ≤ 4000000 }
    ensures goal { IfOk result (λ found. found.0 ≡ goal_of signals.now.lits (get_or (frames_of circuit.now step model.now) step [])) }
    ensures start { IfOk result (λ found. found.1.start ≡ latch_values circuit.now (get_or (frames_of circuit.now step model.now) 0 [])) }
    ensures width { IfOk result (λ found. found.1.rows.width ≡ length circuit.now.inputs) }
    ensures rows { IfOk result (λ found. found.1.rows.rows ≡ map (input_values circuit.now) (frames_of circuit.now step model.now)) }
{
    let width = circuit.top() as usize + 1;
    let from = step as usize * width;
    let values = model.part(alloc, from, from + width)?;
    let goal = goal_of(signals, &values);
    let trace = trace_of_run(alloc, circuit, step, model)?;
    Ok((goal, trace))
}

/// Puts the question for a goal that isn't settled behind the frames.
fn query(
    alloc: Global,
    circuit: &Circuit,
    signals: &Signals,
    framed: &mut FramedFormula,
    settled: &Goals,
) -> Result<(), OutOfMemory>
    requires framing { IsFraming framed.old }
    requires circuit { framed.old.circuit ≡ circuit.now }
    requires signals { signals.now.circuit ≡ circuit.now }
    requires settled { All (λ goal. goal < 2 ^ length signals.now.lits) settled.now }
    ensures { OnOk result (Queries circuit.now signals.now.lits settled.now framed.old framed.new) }
{
    circuit.is_well_formed();
    signals.is_well_formed();
    settled.is_well_formed();
    framed.put_search(alloc, circuit, signals, settled)?;
    Ok(())
}

/// Looks for a goal that is not settled, at the end of a run of the steps of these frames, and learns at most so many
/// lemmas.
pub fn next_new_framed(
    alloc: Global,
    circuit: &Circuit,
    signals: &Signals,
    framed: &mut FramedFormula,
    settled: &Goals,
    lemmas: u64,
) -> Result<Hop, OutOfMemory>
    requires framing { IsFraming framed.old }
    requires circuit { framed.old.circuit ≡ circuit.now }
    requires signals { signals.now.circuit ≡ circuit.now }
    requires settled { All (λ goal. goal < 2 ^ length signals.now.lits) settled.now }
    requires some { 1 ≤ lemmas }
    requires few { lemmas ≤ 2 ^ 60 }
    ensures frames { OnOk result (HasFrames circuit.now framed.old.start framed.old.last framed.new) }
    ensures answer { IfOk result (IsHop circuit.now signals.now.lits framed.old.start framed.old.last settled.now lemmas) }
{
    let step = framed.last();
    query(alloc, circuit, signals, framed, settled)?;
    match solve(alloc, framed.formula(), lemmas)? {
        Answer::Sat(model) => {
            let found = goal_and_trace(alloc, circuit, signals, step, &model)?;
            Ok(Hop::New {
                goal: found.0,
                trace: found.1,
            })
        }
        Answer::Unsat(proof) => Ok(Hop::NoMore(proof)),
        Answer::Spent(proof) => Ok(Hop::Spent(proof)),
    }
}

/// Looks for a goal that is not settled, at the end of a run of the steps 0 to `step` from a state that the start
/// allows, and learns at most so many lemmas.
pub fn next_new(
    alloc: Global,
    circuit: &Circuit,
    signals: &Signals,
    start: &Start,
    step: u32,
    settled: &Goals,
    lemmas: u64,
) -> Result<Hop, FrameFault>
    requires circuit { signals.now.circuit ≡ circuit.now }
    requires start { IsStart circuit.now start.now }
    requires settled { All (λ goal. goal < 2 ^ length signals.now.lits) settled.now }
    requires some { 1 ≤ lemmas }
    requires few { lemmas ≤ 2 ^ 60 }
    ensures answer { IfOk result (IsHop circuit.now signals.now.lits start.now step settled.now lemmas) }
    ensures too_large { ErrExactly FrameFault.OutOfMemory result FrameFault.TooLarge (AreTooLarge circuit.now step) }
{
    let mut framed = FramedFormula::new(alloc, circuit, start, step)?;
    let hop = next_new_framed(alloc, circuit, signals, &mut framed, settled, lemmas)?;
    Ok(hop)
}
