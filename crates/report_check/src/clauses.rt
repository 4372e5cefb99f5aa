//! Clauses over the latches.

ghost use Rattle.std.specs.Prelude.{◌↔◌, All, IfOk, IsTrue};
ghost use Rattle.aig_model.specs.LatchClauses.{IsLatchClause, NamesLatch};
ghost use Rattle.inv_cert.specs.Resets.{HoldsAtReset};

use aig_model::{Circuit, LatchClause};
use inv_cert::{holds_at_reset, reset_state};
use ketch_base::OutOfMemory;
use std::alloc::Global;

fn names_latch(circuit: &Circuit, lit: i32) -> bool
    ensures { IsTrue result ↔ NamesLatch circuit.now lit }
{
    lit != 0 && lit.unsigned_abs() as usize <= circuit.latches().len()
}

fn is_latch_clause(circuit: &Circuit, clause: &[i32]) -> bool
    ensures { IsTrue result ↔ IsLatchClause circuit.now clause.now }
{
    !clause.is_empty() && clause.iter().all(|lit| names_latch(circuit, *lit))
}

pub(crate) fn are_latch_clauses(circuit: &Circuit, clauses: &[LatchClause]) -> bool
    ensures { IsTrue result ↔ All (IsLatchClause circuit.now) clauses.now }
{
    clauses
        .iter()
        .all(|clause| is_latch_clause(circuit, clause.as_slice()))
}

/// Whether no reset state falsifies one of the clauses.
pub(crate) fn hold_at_reset(
    alloc: Global,
    circuit: &Circuit,
    clauses: &[LatchClause],
) -> Result<bool, OutOfMemory>
    requires { All (IsLatchClause circuit.now) clauses.now }
    ensures { IfOk result (λ yes. IsTrue yes ↔ All (HoldsAtReset circuit.now) clauses.now) }
{
    let mut state = reset_state(alloc, circuit)?;
    for clause in clauses {
        if !holds_at_reset(circuit, clause.as_slice(), &mut state) {
            return Ok(false);
        }
    }
    Ok(true)
}
