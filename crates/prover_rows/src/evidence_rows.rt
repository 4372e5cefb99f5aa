//! Sets of kept clauses, and evidence from them: what is accepted, and each refusal.

ghost use Rattle.std.specs.Prelude.{◌≡◌, All, IfOk, IfSome};
ghost use Rattle.lrat_text.specs.Text.{IsWritable};

use crate::circuits::{RING, signals};
use aig_ascii::read_aag;
use aig_model::{Circuit, Kind, Signals};
use inv_cert::{CertFault, Certificate, Evidence, KeptFault, KeptSet};
use inv_prover::{Excluded, Grown, candidates, exclude, greatest};
use lrat_text::{Proof, Proofs};
use std::alloc::Global;
use std::sync::Arc;

const LEMMAS: u64 = 1000;

/// So many proofs without a step.
fn empty_proofs(alloc: Global, count: usize) -> Option<Proofs>
    ensures { IfSome result (All IsWritable) }
{
    let mut proofs = Proofs::new(alloc);
    for _ in 0..count {
        proofs.push(Proof::new(alloc)).ok()?;
    }
    Some(proofs)
}

/// All candidates over one latch, with empty proofs.
fn check_candidates(
    alloc: Global,
    circuit: &Circuit,
    signals: &Signals,
) -> Option<Result<KeptSet, KeptFault>>
    requires { signals.now.circuit ≡ circuit.now }
{
    let clauses = candidates(alloc, circuit, signals, 1).ok()?;
    let proofs = empty_proofs(alloc, clauses.len())?;
    Some(KeptSet::check(alloc, circuit, clauses, proofs))
}

/// What becomes of the proofs of the greatest invariant.
#[derive(Clone, Copy, Debug, PartialEq, Eq)]
enum Proving {
    All,
    First,
    Empty,
}

fn proofs_left(alloc: Global, kept: Proofs, count: usize, proving: Proving) -> Option<Proofs>
    requires { All IsWritable kept }
    ensures { IfSome result (All IsWritable) }
{
    match proving {
        Proving::All => Some(kept),
        Proving::First => {
            let mut kept = kept;
            if !kept.is_empty() {
                kept.truncate(1);
            }
            Some(kept)
        }
        Proving::Empty => empty_proofs(alloc, count),
    }
}

fn check_greatest(
    alloc: Global,
    circuit: &Circuit,
    signals: &Signals,
    proving: Proving,
) -> Option<Result<KeptSet, KeptFault>>
    requires { signals.now.circuit ≡ circuit.now }
    ensures { IfSome result (λ checked. IfOk checked (λ set. set.circuit ≡ circuit.now)) }
{
    let tried = candidates(alloc, circuit, signals, 2).ok()?;
    let grown = greatest(alloc, circuit, &tried, LEMMAS).ok()?;
    let Grown::Whole { clauses, kept } = grown else {
        return None;
    };
    if clauses.len() > 1000 {
        return None;
    }
    let proofs = proofs_left(alloc, kept, clauses.len(), proving)?;
    Some(KeptSet::check(alloc, circuit, clauses, proofs))
}

/// Evidence for a goal, from the proof that the greatest invariant excludes another one or the same.
fn evidence(
    alloc: Global,
    circuit: &Circuit,
    signals: &Signals,
    proved: u32,
    goal: u32,
) -> Option<Result<Evidence, CertFault>>
    requires { signals.now.circuit ≡ circuit.now }
{
    let goals = signals.goals();
    if proved >= goals || goal >= goals {
        return None;
    }
    let set = check_greatest(alloc, circuit, signals, Proving::All)?.ok()?;
    set.is_checked();
    if set.clauses().len() > 1000 {
        return None;
    }
    match exclude(alloc, circuit, signals, set.clauses(), proved, LEMMAS).ok()? {
        Excluded::Yes(proof) => {
            let cert = Certificate::new(Arc::new(alloc, set).ok()?, proof);
            Some(Evidence::from_cert(alloc, circuit, signals, goal, cert))
        }
        _ => None,
    }
}

/// Whether the evidence is that the goal is unreachable.
fn is_for(evidence: Option<Result<Evidence, CertFault>>, goal: u32) -> bool {
    match evidence {
        Some(Ok(evidence)) => evidence.goal() == goal && evidence.kind() == Kind::Unreachable,
        _ => false,
    }
}

fn are_refused(alloc: Global, circuit: &Circuit, signals: &Signals) -> bool
    requires { signals.now.circuit ≡ circuit.now }
{
    let candidates = check_candidates(alloc, circuit, signals);
    let first = check_greatest(alloc, circuit, signals, Proving::First);
    let empty = check_greatest(alloc, circuit, signals, Proving::Empty);
    let another = evidence(alloc, circuit, signals, 0, 3);
    matches!(candidates, Some(Err(KeptFault::Start { clause: 1 })))
        && matches!(first, Some(Err(KeptFault::Count)))
        && matches!(empty, Some(Err(KeptFault::Kept { clause: 0 })))
        && matches!(another, Some(Err(CertFault::Excludes)))
}

fn are_accepted(alloc: Global, circuit: &Circuit, signals: &Signals) -> bool
    requires { signals.now.circuit ≡ circuit.now }
{
    is_for(evidence(alloc, circuit, signals, 0, 0), 0)
        && is_for(evidence(alloc, circuit, signals, 3, 3), 3)
        && evidence(alloc, circuit, signals, 1, 1).is_none()
}

fn holds(alloc: Global) -> Option<bool> {
    let circuit = read_aag(alloc, RING).ok()?;
    let signals = signals(alloc, b"l0\nl1", &circuit)?;
    Some(are_refused(alloc, &circuit, &signals) && are_accepted(alloc, &circuit, &signals))
}

#[test]
fn evidence_of_the_ring(rt: HostRuntime) {
    assert!(rt; holds(rt.alloc()) == Some(true));
}
