//! The literals of a step. A step is named by the number of variables before it.

ghost use Rattle.std.specs.Prelude.{◌≡◌, ◌+◌, ◌<◌};
ghost use Rattle.aig_model.specs.Literal.{var};
ghost use Rattle.unroll.specs.Frames.{lit_after, var_after, with_value};
ghost use Rattle.unroll.specs.Building.{HasLit, HasVar};

use aig_model::Lit;
use cnf_base::CnfLit;

pub(crate) fn var_after(before: u32, var: u32) -> CnfLit
    requires { HasVar 4000000 before var }
    ensures { result ≡ var_after before var }
{
    CnfLit::new((before + var + 1) as i32)
}

pub(crate) fn lit_after(before: u32, lit: Lit) -> CnfLit
    requires { HasLit 4000000 before lit }
    ensures { result ≡ lit_after before lit }
{
    let own = var_after(before, lit.var());
    if lit.is_negated() {
        own.negation()
    } else {
        own
    }
}

/// The literal that is true exactly where the circuit's literal has the value.
pub(crate) fn lit_with_value(before: u32, lit: Lit, value: bool) -> CnfLit
    requires { HasLit 4000000 before lit }
    ensures { result ≡ with_value (lit_after before lit) value }
{
    let own = lit_after(before, lit);
    if value { own } else { own.negation() }
}
