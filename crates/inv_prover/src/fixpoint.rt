//! The greatest invariant among candidates.

ghost use Rattle.std.specs.Prelude.{◌≤◌, ◌<◌, ◌^◌, All, length, IfOk, OnOk};
ghost use Rattle.unroll.specs.Framing.{HasFrames};
ghost use Rattle.unroll.specs.declared.start.Start.TheVariants.{Any};
ghost use Rattle.aig_model.specs.LatchClauses.{IsLatchClause};
ghost use Rattle.inv_prover.specs.Answers.{IsGrown};
ghost use Rattle.inv_prover.specs.Search.{AreAskable, IsBroken, Shrinks};

use crate::frames::one_step;
use crate::grown::Grown;
use crate::pick::{holding_at_reset, holding_in};
use crate::query::{KeptAnswer, is_kept};
use crate::round::{Round, ask_all};
use crate::walk::leave_out_by_walk;
use aig_model::{Bits, Circuit, LatchClauses};
use ketch_base::OutOfMemory;
use std::alloc::Global;
use unroll::FramedFormula;

/// Leaves out the clauses that don't hold in the state, which comes after a step that breaks the one at the place.
fn leave_out(
    alloc: Global,
    circuit: &Circuit,
    clauses: &mut LatchClauses,
    place: u32,
    next: &Bits,
) -> Result<(), OutOfMemory>
    requires clauses { AreAskable circuit.now clauses.old }
    requires place { place < length clauses.old }
    requires broken { IsBroken circuit.now clauses.old place next.now }
    ensures shrinks { OnOk result (Shrinks circuit.now clauses.old clauses.new) }
    ensures fewer { OnOk result (length clauses.new < length clauses.old) }
{
    *clauses = holding_in(alloc, circuit, clauses.as_slice(), next)?;
    Ok(())
}

/// Asks the clauses from a place on, once each, and leaves out what isn't kept. It stops where the budget is spent.
fn leave_out_from(
    alloc: Global,
    circuit: &Circuit,
    framed: &mut FramedFormula,
    clauses: &mut LatchClauses,
    first: u32,
    lemmas: u64,
) -> Result<(), OutOfMemory>
    requires frames { HasFrames circuit.now Any 0 framed.old }
    requires clauses { AreAskable circuit.now clauses.old }
    requires some { 1 ≤ lemmas }
    requires few { lemmas ≤ 2 ^ 60 }
    ensures frames { OnOk result (HasFrames circuit.now Any 0 framed.new) }
    ensures shrinks { OnOk result (Shrinks circuit.now clauses.old clauses.new) }
{
    let mut place = first;
    while (place as usize) < clauses.len() {
        match is_kept(alloc, circuit, framed, clauses, place, lemmas)? {
            KeptAnswer::Kept(_) => place += 1,
            KeptAnswer::Broken(next) => leave_out(alloc, circuit, clauses, place, &next)?,
            KeptAnswer::Spent(_) => return Ok(()),
        }
    }
    Ok(())
}

/// Looks for the greatest invariant among the candidates, each question with a budget of lemmas.
pub fn greatest(
    alloc: Global,
    circuit: &Circuit,
    candidates: &LatchClauses,
    lemmas: u64,
) -> Result<Grown, OutOfMemory>
    requires latches { All (IsLatchClause circuit.now) candidates.now }
    requires few_clauses { length candidates.now < 2 ^ 32 }
    requires short { All (λ clause. length clause < 2 ^ 32) candidates.now }
    requires some { 1 ≤ lemmas }
    requires few { lemmas ≤ 2 ^ 60 }
    ensures { IfOk result (IsGrown circuit.now candidates.now lemmas) }
{
    circuit.is_well_formed();
    let mut clauses = holding_at_reset(alloc, circuit, candidates.as_slice())?;
    leave_out_by_walk(alloc, circuit, &mut clauses)?;
    let mut framed = one_step(alloc, circuit)?;
    loop {
        match ask_all(alloc, circuit, &mut framed, &clauses, lemmas)? {
            Round::Whole(kept) => return Ok(Grown::Whole { clauses, kept }),
            Round::Spent { place, proof } => {
                return Ok(Grown::Spent {
                    clauses,
                    place,
                    proof,
                });
            }
            Round::Broken { place, next } => {
                leave_out(alloc, circuit, &mut clauses, place, &next)?;
                leave_out_from(alloc, circuit, &mut framed, &mut clauses, place, lemmas)?;
            }
        }
    }
}
