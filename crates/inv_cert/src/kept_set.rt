//! Clauses that hold in every state that the circuit reaches.

ghost use Rattle.std.specs.Prelude.{◌≡◌, ◌≢◌, ◌<◌, ◌^◌, ℕ, length, All, IfOk, MatchOption};
ghost use Rattle.ketch_base.specs.Exactly.{OkExactly, ErrExactly};
ghost use Rattle.ketch_base.specs.First.{IsFirst};
ghost use Rattle.aig_model.specs.LatchClauses.{IsInvariant, IsLatchClause};
ghost use Rattle.lrat_text.specs.Text.{IsWritable};
ghost use Rattle.inv_cert.specs.Resets.{HoldsAtReset, FailsAtReset};
ghost use Rattle.inv_cert.specs.KeptSets.{FailsKept, IsKeptBy, IsKeptSet};

use crate::acceptance::is_accepted;
use crate::fault::KeptFault;
use crate::reset::first_failing;
use aig_model::{Circuit, LatchClauses};
use ketch_base::OutOfMemory;
use lrat_text::{Proof, Proofs};
use std::alloc::Global;
use std::marker::Model;
use std::snapshot::Snapshot;
use unroll::kept_formula;

/// Clauses over the latches of a circuit, each with the proof that it's kept by every legal step before which all hold.
#[derive(Drop)]
pub struct KeptSet {
    clauses: LatchClauses,
    kept: Proofs,
    circuit: Snapshot<Circuit>,
}

impl Model for KeptSet {
    ghost use Rattle.inv_cert.specs.KeptSets.{KeptClauses, IsKeptSet};

    ghost Value = { KeptClauses };

    ghost view = { λ s. record { circuit = s.circuit.value; clauses = s.clauses; kept = s.kept } };

    ghost invariant = { λ s. IsKeptSet (record { circuit = s.circuit.value; clauses = s.clauses; kept = s.kept }) };
}

/// The first clause whose proof isn't accepted.
fn first_unkept(
    alloc: Global,
    circuit: &Circuit,
    clauses: &LatchClauses,
    kept: &[Proof],
) -> Result<Option<u32>, OutOfMemory>
    requires latches { All (IsLatchClause circuit.now) clauses.now }
    requires count { length kept.now ≡ length clauses.now }
    requires few { length clauses.now < 2 ^ 32 }
    ensures { IfOk result (λ first. MatchOption first ((k : ℕ) → k < length clauses.now → IsKeptBy circuit.now clauses.now kept.now k) (IsFirst (FailsKept circuit.now clauses.now kept.now))) }
{
    for (place, proof) in kept.iter().enumerate() {
        let formula = kept_formula(alloc, circuit, clauses, place as u32)?;
        if !is_accepted(alloc, &formula, proof)? {
            return Ok(Some(place as u32));
        }
    }
    Ok(None)
}

impl KeptSet {
    /// Holds each proof against its formula. The faults are tried in the order of their clauses here.
    pub fn check(
        alloc: Global,
        circuit: &Circuit,
        clauses: LatchClauses,
        kept: Proofs,
    ) -> Result<KeptSet, KeptFault>
        requires latches { All (IsLatchClause circuit.now) clauses }
        requires few { length clauses < 2 ^ 32 }
        requires written { All IsWritable kept }
        ensures value { IfOk result (λ set. set ≡ record { circuit = circuit.now; clauses = clauses; kept = kept }) }
        ensures ok { OkExactly KeptFault.OutOfMemory result (IsKeptSet (record { circuit = circuit.now; clauses = clauses; kept = kept })) }
        ensures count { ErrExactly KeptFault.OutOfMemory result KeptFault.Count (length kept ≢ length clauses) }
        ensures start { (k : ℕ) → ErrExactly KeptFault.OutOfMemory result (KeptFault.Start k)
            ((length kept ≡ length clauses) × IsFirst (FailsAtReset circuit.now clauses) k) }
        ensures kept { (k : ℕ) → ErrExactly KeptFault.OutOfMemory result (KeptFault.Kept k)
            ((length kept ≡ length clauses) × All (HoldsAtReset circuit.now) clauses × IsFirst (FailsKept circuit.now clauses kept) k) }
    {
        circuit.is_well_formed();
        if kept.len() != clauses.len() {
            return Err(KeptFault::Count);
        }
        if let Some(clause) = first_failing(alloc, circuit, clauses.as_slice())? {
            return Err(KeptFault::Start { clause });
        }
        if let Some(clause) = first_unkept(alloc, circuit, &clauses, kept.as_slice())? {
            return Err(KeptFault::Kept { clause });
        }
        let circuit = Snapshot::of(circuit);
        Ok(KeptSet {
            clauses,
            kept,
            circuit,
        })
    }

    /// A set of which all that `check` tries is known. Nothing is tried again, and it takes no memory.
    pub fn of_checked(circuit: &Circuit, clauses: LatchClauses, kept: Proofs) -> KeptSet
        requires { IsKeptSet (record { circuit = circuit.now; clauses = clauses; kept = kept }) }
        ensures { result ≡ record { circuit = circuit.now; clauses = clauses; kept = kept } }
    {
        KeptSet {
            clauses,
            kept,
            circuit: Snapshot::of(circuit),
        }
    }

    /// Says that each clause was checked, and so that together they are an invariant.
    pub fn is_checked(&self)
        ensures checked { IsKeptSet self.now }
        ensures invariant { IsInvariant self.now.circuit self.now.clauses }
    {
        let _ = &self.clauses;
    }

    pub fn clauses(&self) -> &LatchClauses
        ensures { result.now ≡ self.now.clauses }
    {
        &self.clauses
    }

    pub fn kept(&self) -> &Proofs
        ensures { result.now ≡ self.now.kept }
    {
        &self.kept
    }
}
