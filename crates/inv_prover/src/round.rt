//! One round of the search: each clause is asked until one isn't kept.

ghost use Rattle.std.specs.Prelude.{◌≤◌, ◌^◌, IfOk, OnOk};
ghost use Rattle.unroll.specs.Framing.{HasFrames};
ghost use Rattle.unroll.specs.declared.start.Start.TheVariants.{Any};
ghost use Rattle.inv_prover.specs.Search.{AreAskable, IsRound};

use crate::query::{KeptAnswer, is_kept};
use aig_model::{Bits, Circuit, LatchClauses};
use ketch_base::OutOfMemory;
use lrat_text::{Proof, Proofs};
use std::alloc::Global;
use unroll::FramedFormula;

/// `Whole` has the proofs of all clauses. `Broken` and `Spent` have the first clause without one.
#[derive(Debug, Drop)]
pub(crate) enum Round {
    Whole(Proofs),
    Broken { place: u32, next: Bits },
    Spent { place: u32, proof: Proof },
}

pub(crate) fn ask_all(
    alloc: Global,
    circuit: &Circuit,
    framed: &mut FramedFormula,
    clauses: &LatchClauses,
    lemmas: u64,
) -> Result<Round, OutOfMemory>
    requires frames { HasFrames circuit.now Any 0 framed.old }
    requires clauses { AreAskable circuit.now clauses.now }
    requires some { 1 ≤ lemmas }
    requires few { lemmas ≤ 2 ^ 60 }
    ensures frames { OnOk result (HasFrames circuit.now Any 0 framed.new) }
    ensures round { IfOk result (IsRound circuit.now clauses.now lemmas) }
{
    let mut proofs = Proofs::new(alloc);
    for place in 0..clauses.len() as u32 {
        match is_kept(alloc, circuit, framed, clauses, place, lemmas)? {
            KeptAnswer::Kept(proof) => proofs.push(proof)?,
            KeptAnswer::Broken(next) => return Ok(Round::Broken { place, next }),
            KeptAnswer::Spent(proof) => return Ok(Round::Spent { place, proof }),
        }
    }
    Ok(Round::Whole(proofs))
}
