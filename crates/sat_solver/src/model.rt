//! The values of a trail that has all variables.

ghost use Rattle.std.specs.Prelude.{◌≡◌, ◌<◌, ◌≤◌, ◌-◌, ℕ, pos, false, length, slice_index_or, IfOk};
ghost use Rattle.cnf_base.specs.Status.{has};
ghost use Rattle.sat_trail.specs.Trail.{lits};

use aig_model::Bits;
use cnf_base::CnfLit;
use ketch_base::OutOfMemory;
use sat_trail::{Trail, Value};
use std::alloc::Global;

/// For each variable from 1 on, whether it is true.
pub fn values(alloc: Global, trail: &Trail) -> Result<Bits, OutOfMemory>
    ensures number { IfOk result (λ bits. length bits ≡ trail.now.vars) }
    ensures each { IfOk result (λ bits. (x : ℕ) → 0 < x → x ≤ trail.now.vars → slice_index_or bits (x - 1) false ≡ has (lits trail.now.assignments) (pos x)) }
{
    let mut bits = Bits::new(alloc);
    for var in 1..trail.vars() + 1 {
        bits.push(trail.value(CnfLit::new(var as i32)) == Value::True)?;
    }
    Ok(bits)
}
