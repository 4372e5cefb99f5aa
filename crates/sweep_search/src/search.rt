//! The search of one step, until nothing is new there.

ghost use Rattle.std.specs.Prelude.{◌≡◌, ◌<◌, ◌≤◌, ◌+◌, ◌^◌, All, length, IfOk, OnOk};
ghost use Rattle.unroll.specs.Framing.{HasFrames};
ghost use Rattle.sweep_search.specs.Steps.{AddsAt, IsSearched, IsStepEnd};

use crate::blocked::settled_goals;
use crate::swept::{FoundGoal, FoundGoals, StepQuery};
use aig_model::{Bits, Circuit, Signals};
use hop_search::{Hop, next_new_framed};
use ketch_base::OutOfMemory;
use std::alloc::Global;
use unroll::FramedFormula;

/// How the search of a step ends: nothing more is new there, as its last query shows, which has no model; every goal is
/// settled; or the budget is spent.
#[derive(Drop)]
pub enum StepEnd {
    Whole(StepQuery),
    AllSettled,
    Spent(StepQuery),
}

/// Asks for goals at the last step of the frames until nothing is new there.
pub fn search_step(
    alloc: Global,
    circuit: &Circuit,
    signals: &Signals,
    known: &Bits,
    framed: &mut FramedFormula,
    step: u32,
    lemmas: u64,
    found: &mut FoundGoals,
) -> Result<StepEnd, OutOfMemory>
    requires circuit { signals.now.circuit ≡ circuit.now }
    requires goals { length known.now ≡ 2 ^ length signals.now.lits }
    requires frames { HasFrames circuit.now framed.old.start step framed.old }
    requires some { 1 ≤ lemmas }
    requires few { lemmas ≤ 2 ^ 60 }
    requires searched { IsSearched circuit.now signals.now.lits framed.old.start known.now step found.old }
    ensures frames { OnOk result (HasFrames circuit.now framed.old.start step framed.new) }
    ensures adds { OnOk result (AddsAt step found.old found.new) }
    ensures end { IfOk result (IsStepEnd circuit.now signals.now.lits framed.old.start known.now step lemmas found.new) }
{
    let goals = signals.goals() as usize;
    'queries: loop {
        let blocked = settled_goals(alloc, known, found)?;
        if blocked.len() == goals {
            return Ok(StepEnd::AllSettled);
        }
        match next_new_framed(alloc, circuit, signals, framed, &blocked, lemmas)? {
            Hop::New { goal, trace } => found.push(FoundGoal { goal, step, trace })?,
            Hop::NoMore(proof) => {
                return Ok(StepEnd::Whole(StepQuery {
                    step,
                    blocked,
                    proof,
                }));
            }
            Hop::Spent(proof) => {
                return Ok(StepEnd::Spent(StepQuery {
                    step,
                    blocked,
                    proof,
                }));
            }
        }
    }
}
