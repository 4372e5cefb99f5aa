//! Whether a proof is accepted.

ghost use Rattle.std.specs.Prelude.{◌↔◌, IfOk, IsTrue};
ghost use Rattle.lrat_text.specs.Accepted.{Accepted};

use cnf_base::Formula;
use ketch_base::OutOfMemory;
use lrat_check::{ProofFault, check_proof};
use lrat_text::Proof;
use std::alloc::Global;

pub(crate) fn is_accepted(
    alloc: Global,
    formula: &Formula,
    proof: &Proof,
) -> Result<bool, OutOfMemory>
    ensures { IfOk result (λ yes. IsTrue yes ↔ Accepted formula.now proof.now) }
{
    match check_proof(alloc, formula, proof) {
        Ok(()) => Ok(true),
        Err(ProofFault::At { step: _, kind: _ }) => Ok(false),
        Err(ProofFault::OutOfMemory) => Err(OutOfMemory),
    }
}
