//! What the type of a proof keeps of its literals.

ghost use Rattle.std.specs.List.{AllByRecursion};
ghost use Rattle.lrat_text.specs.Lrat.{IsLiteral};
ghost use Rattle.lrat_text.specs.Text.{HasLiterals, HasProofLiterals};

use cnf_base::Clause;
use lrat_text::{LratStep, Proof};

fn literals_fit(clause: &Clause)
    ensures { AllByRecursion IsLiteral clause.now }
{
    for lit in clause.as_slice() {
        let _ = lit.value();
    }
}

fn step_literals_fit(step: &LratStep)
    ensures { HasLiterals step.now }
{
    match step {
        LratStep::Add { lits, .. } => literals_fit(lits),
        LratStep::Delete { .. } => {}
    }
}

/// Says that the literals of a proof have 32 bits and aren't 0.
pub fn proof_literals_fit(proof: &Proof)
    ensures { HasProofLiterals proof.now }
{
    for step in proof.as_slice() {
        step_literals_fit(step);
    }
}
