//! The clauses that are tried.

ghost use Rattle.std.specs.Prelude.{◌≡◌, ◌<◌, ◌≤◌, ◌^◌, [], ◌∷◌, ◌++◌, All, length, IfOk, OnOk};
ghost use Rattle.std.specs.List.{flat_map};
ghost use Rattle.aig_model.specs.LatchClauses.{IsLatchClause};
ghost use Rattle.inv_prover.specs.Candidates.{AreCandidates, clauses_of_pairs, clauses_over, is_false, is_true, pair_clauses, single_clauses};

use crate::latches::first_dependent;
use aig_model::{Circuit, LatchClause, LatchClauses, Signals};
use ketch_base::OutOfMemory;
use std::alloc::Global;

fn is_true(latch: u32) -> i32
    requires { latch < 4000000 }
    ensures { result ≡ is_true latch }
{
    latch as i32 + 1
}

fn is_false(latch: u32) -> i32
    requires { latch < 4000000 }
    ensures { result ≡ is_false latch }
{
    -(latch as i32) - 1
}

fn push(alloc: Global, clauses: &mut LatchClauses, lits: &[i32]) -> Result<(), OutOfMemory>
    ensures { OnOk result (clauses.new ≡ clauses.old ++ lits.now ∷ []) }
{
    let lits = Vec::from_slice(alloc, lits)?;
    clauses.push(LatchClause::from_vec(lits))?;
    Ok(())
}

fn push_singles(
    alloc: Global,
    clauses: &mut LatchClauses,
    latches: &[u32],
) -> Result<(), OutOfMemory>
    requires { All (λ k. k < 4000000) latches.now }
    ensures { OnOk result (clauses.new ≡ clauses.old ++ flat_map single_clauses latches.now) }
{
    for latch in latches {
        push(alloc, clauses, &[is_true(*latch)])?;
        push(alloc, clauses, &[is_false(*latch)])?;
    }
    Ok(())
}

fn push_pair(
    alloc: Global,
    clauses: &mut LatchClauses,
    first: u32,
    second: u32,
) -> Result<(), OutOfMemory>
    requires first { first < 4000000 }
    requires second { second < 4000000 }
    ensures { OnOk result (clauses.new ≡ clauses.old ++ pair_clauses first second) }
{
    push(alloc, clauses, &[is_true(first), is_true(second)])?;
    push(alloc, clauses, &[is_true(first), is_false(second)])?;
    push(alloc, clauses, &[is_false(first), is_true(second)])?;
    push(alloc, clauses, &[is_false(first), is_false(second)])?;
    Ok(())
}

fn push_pairs_of(
    alloc: Global,
    clauses: &mut LatchClauses,
    first: u32,
    others: &[u32],
) -> Result<(), OutOfMemory>
    requires first { first < 4000000 }
    requires others { All (λ k. k < 4000000) others.now }
    ensures { OnOk result (clauses.new ≡ clauses.old ++ flat_map (pair_clauses first) others.now) }
{
    for second in others {
        push_pair(alloc, clauses, first, *second)?;
    }
    Ok(())
}

fn push_pairs(alloc: Global, clauses: &mut LatchClauses, latches: &[u32]) -> Result<(), OutOfMemory>
    requires { All (λ k. k < 4000000) latches.now }
    ensures { OnOk result (clauses.new ≡ clauses.old ++ clauses_of_pairs latches.now) }
{
    for place in 0..latches.len() {
        push_pairs_of(alloc, clauses, latches[place], &latches[place + 1..])?;
    }
    Ok(())
}

fn clauses_over(alloc: Global, latches: &[u32], strength: u32) -> Result<LatchClauses, OutOfMemory>
    requires { All (λ k. k < 4000000) latches.now }
    ensures { IfOk result (λ clauses. clauses ≡ clauses_over latches.now strength) }
{
    let mut clauses = LatchClauses::new(alloc);
    if strength == 0 {
        return Ok(clauses);
    }
    push_singles(alloc, &mut clauses, latches)?;
    if strength == 1 {
        return Ok(clauses);
    }
    push_pairs(alloc, &mut clauses, latches)?;
    Ok(clauses)
}

/// The clauses over one latch or two, by the strength, of the first latches on which the signals depend.
pub fn candidates(
    alloc: Global,
    circuit: &Circuit,
    signals: &Signals,
    strength: u32,
) -> Result<LatchClauses, OutOfMemory>
    requires { signals.now.circuit ≡ circuit.now }
    ensures candidates { IfOk result (AreCandidates circuit.now signals.now.lits strength) }
    ensures latches { IfOk result (All (IsLatchClause circuit.now)) }
    ensures few { IfOk result (λ clauses. length clauses < 2 ^ 32) }
    ensures short { IfOk result (All (λ clause. length clause < 2 ^ 32)) }
{
    circuit.is_well_formed();
    let latches = first_dependent(alloc, circuit, signals)?;
    let clauses = clauses_over(alloc, &latches, strength)?;
    Ok(clauses)
}
