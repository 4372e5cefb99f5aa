//! Whole proofs.

ghost use Rattle.std.specs.Prelude.{◌≡◌, None, OnOk, IsOkUnless, MatchResult};
ghost use Rattle.cnf_base.specs.Meaning.{HasNoModel};
ghost use Rattle.lrat_text.specs.Accepted.{Accepted};
ghost use Rattle.lrat_check.specs.Answers.{IsProofFault};
ghost use Rattle.lrat_check.specs.FirstFault.{first_fault, fault_from, adds_empty};

use crate::checker::Checker;
use crate::fault::{AddFault, ProofFault, ProofKind};
use cnf_base::Formula;
use lrat_text::{LratStep, Proof};
use std::alloc::Global;

/// Judges the steps in order, up to the first that adds the empty clause. Later steps are not looked at.
pub fn check_proof(alloc: Global, formula: &Formula, proof: &Proof) -> Result<(), ProofFault>
    ensures accepted { OnOk result (Accepted formula.now proof.now) }
    ensures refuted { OnOk result (HasNoModel formula.now.clauses) }
    ensures refused { Accepted formula.now proof.now → IsOkUnless result ProofFault.OutOfMemory }
    ensures answer { MatchResult result (λ _. first_fault formula.now proof.now ≡ None) (IsProofFault (first_fault formula.now proof.now)) }
{
    let mut checker = Checker::new(alloc, formula)?;
    check_steps(&mut checker, proof.as_slice())
}

fn check_steps(checker: &mut Checker, steps: &[LratStep]) -> Result<(), ProofFault>
    ensures { MatchResult result (λ _. fault_from 0 checker.old steps.now ≡ None) (IsProofFault (fault_from 0 checker.old steps.now)) }
{
    for (place, step) in steps.iter().enumerate() {
        match checker.step(step) {
            Ok(()) => {}
            Err(AddFault::Kind(kind)) => {
                return Err(ProofFault::At {
                    step: place as u64 + 1,
                    kind,
                });
            }
            Err(AddFault::OutOfMemory) => return Err(ProofFault::OutOfMemory),
        }
        if is_empty_lemma(step) {
            return Ok(());
        }
    }
    Err(ProofFault::At {
        step: steps.len() as u64,
        kind: ProofKind::NoEmpty,
    })
}

pub(crate) fn is_empty_lemma(step: &LratStep) -> bool
    ensures { result ≡ adds_empty step.now }
{
    match step {
        LratStep::Add {
            id: _,
            lits,
            hints: _,
        } => lits.is_empty(),
        LratStep::Delete { at: _, ids: _ } => false,
    }
}
