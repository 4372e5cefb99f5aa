//! The second test of `build`: each defining literal defines a variable, and no two the same. An `Err` holds the first that fails.

ghost use Rattle.std.specs.Prelude.{◌≡◌, ◌∷◌, ◌↔◌, [], false, length, slice_index_or, IsTrue, OnOk, IfErr};
ghost use Rattle.aig_model.specs.Literal.{var};
ghost use Rattle.aig_model.specs.WellFormed.{definers, latch_lits, left_sides, IsDefining};
ghost use Rattle.aig_model.specs.Marks.{HaveRoom, Defines, FailsToDefine};

use crate::bits::Bits;
use crate::lit::Lit;
use crate::parts::{AndGate, Latch, Parts};

fn is_new(defined: &Bits, lit: Lit) -> bool
    requires { HaveRoom defined.now (lit ∷ []) }
    ensures { IsTrue result ↔ (IsDefining lit × (¬ IsTrue (slice_index_or defined.now (var lit) false))) }
{
    !lit.is_negated() && lit.var() != 0 && !defined.get(lit.var() as usize)
}

fn define(defined: &mut Bits, lit: Lit) -> Result<(), Lit>
    requires { HaveRoom defined.old (lit ∷ []) }
    ensures size { length defined.new ≡ length defined.old }
    ensures ok { OnOk result (Defines defined.old defined.new (lit ∷ [])) }
    ensures err { IfErr result (FailsToDefine defined.old (lit ∷ [])) }
{
    if !is_new(defined, lit) {
        return Err(lit);
    }
    defined.set(lit.var() as usize, true);
    Ok(())
}

fn define_lits(defined: &mut Bits, lits: &[Lit]) -> Result<(), Lit>
    requires { HaveRoom defined.old lits.now }
    ensures size { length defined.new ≡ length defined.old }
    ensures ok { OnOk result (Defines defined.old defined.new lits.now) }
    ensures err { IfErr result (FailsToDefine defined.old lits.now) }
{
    for lit in lits {
        define(defined, *lit)?;
    }
    Ok(())
}

fn define_latches(defined: &mut Bits, latches: &[Latch]) -> Result<(), Lit>
    requires { HaveRoom defined.old (latch_lits latches.now) }
    ensures size { length defined.new ≡ length defined.old }
    ensures ok { OnOk result (Defines defined.old defined.new (latch_lits latches.now)) }
    ensures err { IfErr result (FailsToDefine defined.old (latch_lits latches.now)) }
{
    for latch in latches {
        define(defined, latch.lit)?;
    }
    Ok(())
}

fn define_gates(defined: &mut Bits, gates: &[AndGate]) -> Result<(), Lit>
    requires { HaveRoom defined.old (left_sides gates.now) }
    ensures size { length defined.new ≡ length defined.old }
    ensures ok { OnOk result (Defines defined.old defined.new (left_sides gates.now)) }
    ensures err { IfErr result (FailsToDefine defined.old (left_sides gates.now)) }
{
    for gate in gates {
        define(defined, gate.lhs)?;
    }
    Ok(())
}

pub fn check_definers(defined: &mut Bits, parts: &Parts) -> Result<(), Lit>
    requires { HaveRoom defined.old (definers parts.now) }
    ensures size { length defined.new ≡ length defined.old }
    ensures ok { OnOk result (Defines defined.old defined.new (definers parts.now)) }
    ensures err { IfErr result (FailsToDefine defined.old (definers parts.now)) }
{
    define_lits(defined, parts.inputs.as_slice())?;
    define_latches(defined, parts.latches.as_slice())?;
    define_gates(defined, parts.gates.as_slice())?;
    Ok(())
}
