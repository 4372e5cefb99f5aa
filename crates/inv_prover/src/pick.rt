//! The clauses of a list that hold at reset, or in a state.

ghost use Rattle.std.specs.Prelude.{◌≡◌, All, length, IfOk};
ghost use Rattle.aig_model.specs.LatchClauses.{IsLatchClause, SatisfiesClause};
ghost use Rattle.inv_cert.specs.Resets.{HoldsAtReset};
ghost use Rattle.inv_prover.specs.Greatest.{ArePicked};

use aig_model::{Bits, Circuit, LatchClause, LatchClauses};
use inv_cert::{holds_at_reset, reset_state, satisfies};
use ketch_base::OutOfMemory;
use std::alloc::Global;

fn copy(alloc: Global, clause: &LatchClause) -> Result<LatchClause, OutOfMemory>
    ensures { IfOk result (λ copied. copied ≡ clause.now) }
{
    let items = Vec::from_slice(alloc, clause.as_slice())?;
    Ok(LatchClause::from_vec(items))
}

/// The clauses that hold in every reset state.
pub(crate) fn holding_at_reset(
    alloc: Global,
    circuit: &Circuit,
    clauses: &[LatchClause],
) -> Result<LatchClauses, OutOfMemory>
    requires { All (IsLatchClause circuit.now) clauses.now }
    ensures { IfOk result (ArePicked (HoldsAtReset circuit.now) clauses.now) }
{
    let mut state = reset_state(alloc, circuit)?;
    let mut picked = LatchClauses::new(alloc);
    for clause in clauses {
        if holds_at_reset(circuit, clause.as_slice(), &mut state) {
            picked.push(copy(alloc, clause)?)?;
        }
    }
    Ok(picked)
}

/// The clauses that hold in the state.
pub(crate) fn holding_in(
    alloc: Global,
    circuit: &Circuit,
    clauses: &[LatchClause],
    state: &Bits,
) -> Result<LatchClauses, OutOfMemory>
    requires latches { All (IsLatchClause circuit.now) clauses.now }
    requires size { length state.now ≡ length circuit.now.latches }
    ensures { IfOk result (ArePicked (SatisfiesClause state.now) clauses.now) }
{
    let mut picked = LatchClauses::new(alloc);
    for clause in clauses {
        if satisfies(circuit, state, clause.as_slice()) {
            picked.push(copy(alloc, clause)?)?;
        }
    }
    Ok(picked)
}
