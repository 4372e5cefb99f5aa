//! The prover, and the formulas that it asks.

ghost use Rattle.std.specs.Prelude.{◌≡◌, ◌≤◌, ◌^◌, List, ℤ, All, IfOk};
ghost use Rattle.aig_model.specs.LatchClauses.{IsLatchClause};
ghost use Rattle.cnf_base.specs.Text.{formula_text};
ghost use Rattle.unroll.specs.Queries.{kept_formula};
ghost use Rattle.inv_prover.specs.Candidates.{AreCandidates};
ghost use Rattle.inv_prover.specs.Answers.{IsGrown};

use crate::stop::Stop;
use aig_model::{Circuit, LatchClauses, Signals};
use cnf_base::write_dimacs;
use inv_prover::{Grown, candidates, greatest};
use std::alloc::Global;
use unroll::kept_formula;

/// The greatest invariant among the candidates of a strength.
pub fn prove(
    alloc: Global,
    circuit: &Circuit,
    signals: &Signals,
    strength: u32,
    lemmas: u64,
) -> Result<Grown, Stop>
    requires circuit { signals.now.circuit ≡ circuit.now }
    requires some { 1 ≤ lemmas }
    requires few { lemmas ≤ 2 ^ 60 }
    ensures { IfOk result (λ grown. (tried : List (List ℤ)) × AreCandidates circuit.now signals.now.lits strength tried × IsGrown circuit.now tried lemmas grown) }
{
    let tried = candidates(alloc, circuit, signals, strength)?;
    let grown = greatest(alloc, circuit, &tried, lemmas)?;
    Ok(grown)
}

/// The question whether the clause at the place is kept, if there is one.
fn question_text(
    alloc: Global,
    circuit: &Circuit,
    clauses: &LatchClauses,
    place: u32,
) -> Result<Vec<u8>, Stop>
    requires { All (IsLatchClause circuit.now) clauses.now }
    ensures { IfOk result (λ text. text.items ≡ formula_text (kept_formula circuit.now clauses.now place)) }
{
    if place as usize >= clauses.len() {
        return Err(Stop::NoFormula);
    }
    let formula = kept_formula(alloc, circuit, clauses, place)?;
    let text = write_dimacs(alloc, &formula)?;
    Ok(text)
}

/// The question whether the clause at a place of the greatest invariant of strength 2 is kept.
pub fn kept_text(
    alloc: Global,
    circuit: &Circuit,
    signals: &Signals,
    place: u32,
    lemmas: u64,
) -> Result<Vec<u8>, Stop>
    requires circuit { signals.now.circuit ≡ circuit.now }
    requires some { 1 ≤ lemmas }
    requires few { lemmas ≤ 2 ^ 60 }
{
    let tried = candidates(alloc, circuit, signals, 2)?;
    match greatest(alloc, circuit, &tried, lemmas)? {
        Grown::Whole { clauses, kept: _ } => question_text(alloc, circuit, &clauses, place),
        Grown::Spent { .. } => Err(Stop::NoFormula),
    }
}
