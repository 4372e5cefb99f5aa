//! The values of literals, two places for each variable, so that one read gives a literal's value.

ghost use Rattle.std.specs.Prelude.{◌≡◌, ℕ, ℤ, ◌+◌, ◌*◌, ◌<◌, ◌≤◌, length, map, neg_ℤ, nat_abs, nat_eq, if◌then◌else◌, All, slice_range};
ghost use Rattle.std.specs.List.{list_any};
ghost use Rattle.cnf_base.specs.Status.{same_lit};
ghost use Rattle.sat_trail.specs.Kept.{kept_value};

use crate::truth::Value;
use cnf_base::CnfLit;

/// Sets a literal's value and that of its negation.
pub fn set_values(values: &mut [Value], lit: CnfLit, value: Value, opposite: Value)
    requires { 2 * nat_abs lit + 1 < length values.old }
    ensures { (l : ℤ) → kept_value values.new l
        ≡ (if same_lit lit l then value else (if same_lit lit (neg_ℤ l) then opposite else kept_value values.old l)) }
{
    let place = lit.index();
    let other = 4 * lit.var() as usize + 1 - place;
    values[place] = value;
    values[other] = opposite;
}

/// The literals from one place up to another.
pub fn between(lits: &[CnfLit], from: u32, to: u32) -> &[CnfLit]
    requires ordered { from ≤ to }
    requires in_range { to ≤ length lits.now }
    ensures { result.now ≡ slice_range lits.now from to }
{
    &lits[from as usize..to as usize]
}

/// Unsets the variables of these literals.
pub fn unset_all(values: &mut [Value], lits: &[CnfLit])
    requires { All (λ l. 2 * nat_abs l + 1 < length values.old) lits.now }
    ensures { (l : ℤ) → kept_value values.new l
        ≡ (if list_any (nat_eq (nat_abs l)) (map nat_abs lits.now) then Value.Unset else kept_value values.old l) }
{
    for lit in lits {
        set_values(values, *lit, Value::Unset, Value::Unset);
    }
}
