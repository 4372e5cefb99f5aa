//! One question of the search: is a clause kept by each step before which all clauses hold?

ghost use Rattle.std.specs.Prelude.{◌≡◌, ◌≤◌, ◌<◌, ◌^◌, length, IfOk, OnOk};
ghost use Rattle.unroll.specs.Queries.{kept_formula};
ghost use Rattle.unroll.specs.Framing.{HasFrames};
ghost use Rattle.unroll.specs.declared.start.Start.TheVariants.{Any};
ghost use Rattle.inv_prover.specs.Search.{AreAskable, IsKeptAnswer};

use aig_eval::next_state;
use aig_model::{Bits, Circuit, LatchClauses};
use cnf_base::Formula;
use ketch_base::OutOfMemory;
use lrat_text::Proof;
use sat_solver::{Answer, solve};
use std::alloc::Global;
use unroll::{FramedFormula, few_clauses, kept_is_refuted};

/// `Kept` has the proof that it is, `Broken` a state after such a step in which it doesn't hold, and `Spent` a proof
/// that the budget was spent on the question.
#[derive(Debug, Drop)]
pub(crate) enum KeptAnswer {
    Kept(Proof),
    Broken(Bits),
    Spent(Proof),
}

/// The answer to the question whose formula this is.
fn answer(
    alloc: Global,
    circuit: &Circuit,
    formula: &Formula,
    clauses: &LatchClauses,
    place: u32,
    lemmas: u64,
) -> Result<KeptAnswer, OutOfMemory>
    requires formula { formula.now ≡ kept_formula circuit.now clauses.now place }
    requires clauses { AreAskable circuit.now clauses.now }
    requires place { place < length clauses.now }
    requires some { 1 ≤ lemmas }
    requires few { lemmas ≤ 2 ^ 60 }
    ensures { IfOk result (IsKeptAnswer circuit.now clauses.now place lemmas) }
{
    let _ = clauses;
    let _ = place;
    circuit.is_well_formed();
    few_clauses();
    kept_is_refuted();
    match solve(alloc, formula, lemmas)? {
        Answer::Unsat(proof) => Ok(KeptAnswer::Kept(proof)),
        Answer::Sat(values) => {
            let next = next_state(alloc, circuit, &values)?;
            Ok(KeptAnswer::Broken(next))
        }
        Answer::Spent(proof) => Ok(KeptAnswer::Spent(proof)),
    }
}

/// Asks behind the frame of one step.
pub(crate) fn is_kept(
    alloc: Global,
    circuit: &Circuit,
    framed: &mut FramedFormula,
    clauses: &LatchClauses,
    place: u32,
    lemmas: u64,
) -> Result<KeptAnswer, OutOfMemory>
    requires frames { HasFrames circuit.now Any 0 framed.old }
    requires clauses { AreAskable circuit.now clauses.now }
    requires place { place < length clauses.now }
    requires some { 1 ≤ lemmas }
    requires few { lemmas ≤ 2 ^ 60 }
    ensures frames { OnOk result (HasFrames circuit.now Any 0 framed.new) }
    ensures answer { IfOk result (IsKeptAnswer circuit.now clauses.now place lemmas) }
{
    framed.put_kept(alloc, circuit, clauses, place)?;
    let answer = answer(alloc, circuit, framed.formula(), clauses, place, lemmas)?;
    Ok(answer)
}
