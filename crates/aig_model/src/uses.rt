//! The third test of `build`: each used variable is 0 or defined. An `Err` holds the first literal whose variable is not.

ghost use Rattle.std.specs.Prelude.{◌≡◌, ◌∷◌, [], OnOk, IfErr};
ghost use Rattle.aig_model.specs.WellFormed.{uses, next_lits, gate_inputs};
ghost use Rattle.aig_model.specs.Faults.{AllRight, IsFirstWrong};
ghost use Rattle.aig_model.specs.Marks.{HaveRoom, IsMarked};

use crate::bits::Bits;
use crate::lit::Lit;
use crate::parts::{AndGate, Latch, Parts};

fn check_lit(defined: &Bits, lit: Lit) -> Result<(), Lit>
    requires { HaveRoom defined.now (lit ∷ []) }
    ensures ok { OnOk result (AllRight (λ _ l. IsMarked defined.now l) (lit ∷ [])) }
    ensures err { IfErr result (IsFirstWrong (λ _ l. IsMarked defined.now l) (lit ∷ [])) }
{
    let var = lit.var() as usize;
    if var == 0 || defined.get(var) {
        Ok(())
    } else {
        Err(lit)
    }
}

fn check_lits(defined: &Bits, lits: &[Lit]) -> Result<(), Lit>
    requires { HaveRoom defined.now lits.now }
    ensures ok { OnOk result (AllRight (λ _ l. IsMarked defined.now l) lits.now) }
    ensures err { IfErr result (IsFirstWrong (λ _ l. IsMarked defined.now l) lits.now) }
{
    for lit in lits {
        check_lit(defined, *lit)?;
    }
    Ok(())
}

fn check_latches(defined: &Bits, latches: &[Latch]) -> Result<(), Lit>
    requires { HaveRoom defined.now (next_lits latches.now) }
    ensures ok { OnOk result (AllRight (λ _ l. IsMarked defined.now l) (next_lits latches.now)) }
    ensures err { IfErr result (IsFirstWrong (λ _ l. IsMarked defined.now l) (next_lits latches.now)) }
{
    for latch in latches {
        check_lit(defined, latch.next)?;
    }
    Ok(())
}

fn check_gates(defined: &Bits, gates: &[AndGate]) -> Result<(), Lit>
    requires { HaveRoom defined.now (gate_inputs gates.now) }
    ensures ok { OnOk result (AllRight (λ _ l. IsMarked defined.now l) (gate_inputs gates.now)) }
    ensures err { IfErr result (IsFirstWrong (λ _ l. IsMarked defined.now l) (gate_inputs gates.now)) }
{
    for gate in gates {
        check_lit(defined, gate.left)?;
        check_lit(defined, gate.right)?;
    }
    Ok(())
}

pub fn check_uses(defined: &Bits, parts: &Parts) -> Result<(), Lit>
    requires { HaveRoom defined.now (uses parts.now) }
    ensures ok { OnOk result (AllRight (λ _ l. IsMarked defined.now l) (uses parts.now)) }
    ensures err { IfErr result (IsFirstWrong (λ _ l. IsMarked defined.now l) (uses parts.now)) }
{
    check_latches(defined, parts.latches.as_slice())?;
    check_lits(defined, parts.outputs.as_slice())?;
    check_lits(defined, parts.bads.as_slice())?;
    check_lits(defined, parts.constraints.as_slice())?;
    check_gates(defined, parts.gates.as_slice())?;
    Ok(())
}
