//! The sweep and the hop, step by step from where they start.

ghost use Rattle.std.specs.Prelude.{◌≡◌, ◌≤◌, ◌+◌, ◌^◌, length, IfOk, OnOk};
ghost use Rattle.unroll.specs.Frames.{vars_before};
ghost use Rattle.unroll.specs.Starts.{IsStart};
ghost use Rattle.sweep_search.specs.Steps.{with_query};
ghost use Rattle.sweep_search.specs.Sweep.{IsHopFrom, IsSearchFrom, IsSweep, steps_up_to};

use crate::frames::{first_frame, next_frame};
use crate::search::{StepEnd, search_step};
use crate::swept::{FoundGoals, StepQueries, StepQuery, Swept};
use aig_model::{Bits, Circuit, Signals};
use ketch_base::OutOfMemory;
use std::alloc::Global;
use unroll::Start;

/// What was found, after so many steps that were searched whole.
fn swept(found: FoundGoals, whole: u32, refuted: StepQueries, spent: Option<StepQuery>) -> Swept
    ensures found { result.found ≡ found }
    ensures upto { steps_up_to result.upto ≡ whole }
    ensures refuted { result.refuted ≡ refuted }
    ensures spent { result.spent ≡ spent }
{
    Swept {
        found,
        upto: whole.checked_sub(1),
        refuted,
        spent,
    }
}

/// Keeps the query of a step that was searched whole, or lets it go.
fn add_query(keep: bool, refuted: &mut StepQueries, query: StepQuery) -> Result<(), OutOfMemory>
    ensures { OnOk result (refuted.new ≡ with_query keep refuted.old query) }
{
    if keep {
        refuted.push(query)?;
    }
    Ok(())
}

/// Finds every goal that is reached within `depth` steps from a state that the start allows and isn't known yet, step
/// by step, or stops at the first query that needs more than so many lemmas. `keep` asks for the queries that have no model.
fn search_from(
    alloc: Global,
    circuit: &Circuit,
    signals: &Signals,
    start: &Start,
    known: &Bits,
    depth: u32,
    lemmas: u64,
    keep: bool,
) -> Result<Swept, OutOfMemory>
    requires circuit { signals.now.circuit ≡ circuit.now }
    requires start { IsStart circuit.now start.now }
    requires goals { length known.now ≡ 2 ^ length signals.now.lits }
    requires room { vars_before circuit.now (depth + 1) ≤ 4000000 }
    requires some { 1 ≤ lemmas }
    requires few { lemmas ≤ 2 ^ 60 }
    ensures { IfOk result (IsSearchFrom circuit.now signals.now.lits start.now known.now depth lemmas keep) }
{
    let mut framed = first_frame(alloc, circuit, start)?;
    let mut found = FoundGoals::new(alloc);
    let mut refuted = StepQueries::new(alloc);
    for step in 0..depth + 1 {
        match search_step(
            alloc,
            circuit,
            signals,
            known,
            &mut framed,
            step,
            lemmas,
            &mut found,
        )? {
            StepEnd::Whole(query) => {
                add_query(keep, &mut refuted, query)?;
                next_frame(alloc, circuit, &mut framed, step, depth)?;
            }
            StepEnd::AllSettled => return Ok(swept(found, step, refuted, None)),
            StepEnd::Spent(query) => return Ok(swept(found, step, refuted, Some(query))),
        }
    }
    Ok(swept(found, depth + 1, refuted, None))
}

/// Finds every goal that is reached within `depth` steps from reset and isn't known yet, step by step, or stops at the
/// first query that needs more than so many lemmas. `known` has a value for each goal, true where it is settled already.
/// `keep` asks for the queries that have no model, one for each step that is searched whole, with their proofs.
pub fn sweep(
    alloc: Global,
    circuit: &Circuit,
    signals: &Signals,
    known: &Bits,
    depth: u32,
    lemmas: u64,
    keep: bool,
) -> Result<Swept, OutOfMemory>
    requires circuit { signals.now.circuit ≡ circuit.now }
    requires goals { length known.now ≡ 2 ^ length signals.now.lits }
    requires room { vars_before circuit.now (depth + 1) ≤ 4000000 }
    requires some { 1 ≤ lemmas }
    requires few { lemmas ≤ 2 ^ 60 }
    ensures { IfOk result (IsSweep circuit.now signals.now.lits known.now depth lemmas keep) }
{
    let start = Start::Reset;
    let found = search_from(alloc, circuit, signals, &start, known, depth, lemmas, keep)?;
    Ok(found)
}

/// Finds every goal that is reached within `hop` steps from this state and isn't known yet, as a sweep does from reset.
pub fn hop_from(
    alloc: Global,
    circuit: &Circuit,
    signals: &Signals,
    state: &Bits,
    known: &Bits,
    hop: u32,
    lemmas: u64,
    keep: bool,
) -> Result<Swept, OutOfMemory>
    requires circuit { signals.now.circuit ≡ circuit.now }
    requires state { length state.now ≡ length circuit.now.latches }
    requires goals { length known.now ≡ 2 ^ length signals.now.lits }
    requires room { vars_before circuit.now (hop + 1) ≤ 4000000 }
    requires some { 1 ≤ lemmas }
    requires few { lemmas ≤ 2 ^ 60 }
    ensures { IfOk result (IsHopFrom circuit.now signals.now.lits state.now known.now hop lemmas keep) }
{
    let copy = state.part(alloc, 0, state.len())?;
    let start = Start::State(copy);
    let found = search_from(alloc, circuit, signals, &start, known, hop, lemmas, keep)?;
    Ok(found)
}
