//! Whether a witness shows its goal, and whether proofs are accepted.

ghost use Rattle.std.specs.Prelude.{◌≡◌, ◌↔◌, ◌<◌, ◌^◌, All, length, IfOk, IsTrue};
ghost use Rattle.aig_model.specs.LatchClauses.{IsLatchClause};
ghost use Rattle.aig_model.specs.Replays.{Shows};
ghost use Rattle.lrat_text.specs.Accepted.{Accepted};
ghost use Rattle.lrat_text.specs.Spent.{SpentOn};
ghost use Rattle.unroll.specs.Queries.{excludes_formula};
ghost use Rattle.report_check.specs.Invariants.{AreKept};

use aig_eval::{ReplayFault, replay};
use aig_model::{Circuit, LatchClauses, Signals, Trace};
use cnf_base::Formula;
use ketch_base::OutOfMemory;
use lrat_check::{ProofFault, SpentFault, check_proof, check_spent};
use lrat_text::Proof;
use report_text::Inv;
use std::alloc::Global;
use unroll::{excludes_formula, kept_formula};

/// Steps are counted in 32 bits: for a longer witness there is no room.
pub(crate) fn shows(
    alloc: Global,
    circuit: &Circuit,
    signals: &Signals,
    witness: &Trace,
    goal: u32,
) -> Result<bool, OutOfMemory>
    requires { signals.now.circuit ≡ circuit.now }
    ensures { IfOk result (λ yes. IsTrue yes ↔ Shows circuit.now signals.now.lits witness.now goal) }
{
    if witness.rows.len() > u32::MAX as usize {
        return Err(OutOfMemory);
    }
    match replay(alloc, circuit, signals, witness) {
        Ok(shown) => Ok(shown == goal),
        Err(ReplayFault::OutOfMemory) => Err(OutOfMemory),
        Err(ReplayFault::Shape) => Ok(false),
        Err(ReplayFault::NotReset { .. }) => Ok(false),
        Err(ReplayFault::Constraint { .. }) => Ok(false),
    }
}

pub(crate) fn is_accepted(
    alloc: Global,
    formula: &Formula,
    proof: &Proof,
) -> Result<bool, OutOfMemory>
    ensures { IfOk result (λ yes. IsTrue yes ↔ Accepted formula.now proof.now) }
{
    match check_proof(alloc, formula, proof) {
        Ok(()) => Ok(true),
        Err(ProofFault::At { step: _, kind: _ }) => Ok(false),
        Err(ProofFault::OutOfMemory) => Err(OutOfMemory),
    }
}

pub(crate) fn is_spent(
    alloc: Global,
    formula: &Formula,
    lemmas: u64,
    proof: &Proof,
) -> Result<bool, OutOfMemory>
    ensures { IfOk result (λ yes. IsTrue yes ↔ SpentOn formula.now lemmas proof.now) }
{
    match check_spent(alloc, formula, lemmas, proof) {
        Ok(()) => Ok(true),
        Err(SpentFault::OutOfMemory) => Err(OutOfMemory),
        Err(SpentFault::Proof { step: _ } | SpentFault::Lemma { step: _ } | SpentFault::Count) => {
            Ok(false)
        }
    }
}

/// Whether each clause's proof that it's kept is accepted.
pub(crate) fn are_kept(alloc: Global, circuit: &Circuit, inv: &Inv) -> Result<bool, OutOfMemory>
    requires latches { All (IsLatchClause circuit.now) inv.now.clauses }
    requires count { length inv.now.kept ≡ length inv.now.clauses }
    requires few { length inv.now.clauses < 2 ^ 32 }
    ensures { IfOk result (λ yes. IsTrue yes ↔ AreKept circuit.now inv.now) }
{
    for (place, proof) in inv.kept.as_slice().iter().enumerate() {
        let formula = kept_formula(alloc, circuit, &inv.clauses, place as u32)?;
        if !is_accepted(alloc, &formula, proof)? {
            return Ok(false);
        }
    }
    Ok(true)
}

/// Whether the proof that the clauses exclude the goal is accepted.
pub(crate) fn excludes(
    alloc: Global,
    circuit: &Circuit,
    signals: &Signals,
    clauses: &LatchClauses,
    goal: u32,
    proof: &Proof,
) -> Result<bool, OutOfMemory>
    requires signals { signals.now.circuit ≡ circuit.now }
    requires latches { All (IsLatchClause circuit.now) clauses.now }
    requires goal { goal < 2 ^ length signals.now.lits }
    ensures { IfOk result (λ yes. IsTrue yes ↔ Accepted (excludes_formula circuit.now signals.now.lits clauses.now goal) proof.now) }
{
    let formula = excludes_formula(alloc, circuit, signals, clauses, goal)?;
    let accepted = is_accepted(alloc, &formula, proof)?;
    Ok(accepted)
}
