//! Assumptions, in their order.

ghost use Rattle.std.specs.Prelude.{◌≤◌};
ghost use Rattle.cnf_base.specs.Meaning.{IsWithin};
ghost use Rattle.sat_trail.specs.Trail.{lits};
ghost use Rattle.sat_incremental.specs.Assuming.{IsPending};

use cnf_base::CnfLit;
use sat_trail::{Trail, Value};

/// The first assumption that isn't true.
#[derive(Clone, Copy, Debug)]
pub enum Pending {
    AllTrue,
    Open(CnfLit),
    /// It is false.
    Failed(CnfLit),
}

pub fn first_pending(assumptions: &[CnfLit], trail: &Trail) -> Pending
    requires { IsWithin trail.now.vars assumptions.now }
    ensures { IsPending assumptions.now (lits trail.now.assignments) result }
{
    trail.is_well_formed();
    for lit in assumptions {
        match trail.value(*lit) {
            Value::True => {}
            Value::Unset => return Pending::Open(*lit),
            Value::False => return Pending::Failed(*lit),
        }
    }
    Pending::AllTrue
}
