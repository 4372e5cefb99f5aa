//! The first test of `build`: every literal is in range. An `Err` holds the first that is not.

ghost use Rattle.std.specs.Prelude.{◌≤◌, ◌∷◌, [], OnOk, IfErr};
ghost use Rattle.aig_model.specs.WellFormed.{literals, latch_literals, gate_literals, limit, IsInRange};
ghost use Rattle.aig_model.specs.Faults.{AllRight, IsFirstWrong};

use crate::lit::Lit;
use crate::parts::{AndGate, Latch, Parts};

fn check_lit(most: u32, lit: Lit) -> Result<(), Lit>
    ensures ok { OnOk result (AllRight (λ _ l. l ≤ most) (lit ∷ [])) }
    ensures err { IfErr result (IsFirstWrong (λ _ l. l ≤ most) (lit ∷ [])) }
{
    if lit.value() > most { Err(lit) } else { Ok(()) }
}

fn check_lits(most: u32, lits: &[Lit]) -> Result<(), Lit>
    ensures ok { OnOk result (AllRight (λ _ l. l ≤ most) lits.now) }
    ensures err { IfErr result (IsFirstWrong (λ _ l. l ≤ most) lits.now) }
{
    for lit in lits {
        check_lit(most, *lit)?;
    }
    Ok(())
}

fn check_latches(most: u32, latches: &[Latch]) -> Result<(), Lit>
    ensures ok { OnOk result (AllRight (λ _ l. l ≤ most) (latch_literals latches.now)) }
    ensures err { IfErr result (IsFirstWrong (λ _ l. l ≤ most) (latch_literals latches.now)) }
{
    for latch in latches {
        check_lit(most, latch.lit)?;
        check_lit(most, latch.next)?;
    }
    Ok(())
}

fn check_gates(most: u32, gates: &[AndGate]) -> Result<(), Lit>
    ensures ok { OnOk result (AllRight (λ _ l. l ≤ most) (gate_literals gates.now)) }
    ensures err { IfErr result (IsFirstWrong (λ _ l. l ≤ most) (gate_literals gates.now)) }
{
    for gate in gates {
        check_lit(most, gate.lhs)?;
        check_lit(most, gate.left)?;
        check_lit(most, gate.right)?;
    }
    Ok(())
}

pub fn check_range(parts: &Parts) -> Result<(), Lit>
    requires { parts.now.top ≤ limit }
    ensures ok { OnOk result (AllRight (λ _ l. IsInRange parts.now.top l) (literals parts.now)) }
    ensures err { IfErr result (IsFirstWrong (λ _ l. IsInRange parts.now.top l) (literals parts.now)) }
{
    let most = 2 * parts.top + 1;
    check_lits(most, parts.inputs.as_slice())?;
    check_latches(most, parts.latches.as_slice())?;
    check_lits(most, parts.outputs.as_slice())?;
    check_lits(most, parts.bads.as_slice())?;
    check_lits(most, parts.constraints.as_slice())?;
    check_gates(most, parts.gates.as_slice())?;
    Ok(())
}
