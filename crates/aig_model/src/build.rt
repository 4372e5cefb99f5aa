//! The tests of `build`, one after another.

ghost use Rattle.std.specs.Prelude.{OnOk, IfErr};
ghost use Rattle.aig_model.specs.WellFormed.{IsSized, AreNames, IsCircuit};
ghost use Rattle.aig_model.specs.Faults.{Says};

use crate::bits::Bits;
use crate::definers::check_definers;
use crate::fault::BuildFault;
use crate::order::{check_order, mark_left_sides};
use crate::parts::Parts;
use crate::range::check_range;
use crate::uses::check_uses;
use std::alloc::Global;

pub fn check(alloc: Global, parts: &Parts) -> Result<(), BuildFault>
    requires sized { IsSized parts.now }
    requires names { AreNames parts.now }
    ensures ok { OnOk result (IsCircuit parts.now) }
    ensures err { IfErr result (Says parts.now) }
{
    if let Err(lit) = check_range(parts) {
        return Err(BuildFault::Range { lit: lit.value() });
    }
    let variables = parts.top as usize + 1;
    let mut defined = Bits::all_false(alloc, variables)?;
    if let Err(lit) = check_definers(&mut defined, parts) {
        return Err(BuildFault::Defined { lit: lit.value() });
    }
    if let Err(lit) = check_uses(&defined, parts) {
        return Err(BuildFault::Undefined { lit: lit.value() });
    }
    let gates = parts.gates.as_slice();
    let mut ahead = Bits::all_false(alloc, variables)?;
    mark_left_sides(&mut ahead, gates);
    if let Err(gate) = check_order(&mut ahead, gates) {
        return Err(BuildFault::Order { gate });
    }
    Ok(())
}
