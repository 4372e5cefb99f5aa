//! A random walk from reset, which leaves out clauses before the solver is asked.

ghost use Rattle.std.specs.Prelude.{◌≡◌, All, length, IfOk, OnOk};
ghost use Rattle.aig_model.specs.LatchClauses.{IsLatchClause, SatisfiesClauses};
ghost use Rattle.inv_cert.specs.Resets.{HoldsAtReset};
ghost use Rattle.inv_prover.specs.Search.{Shrinks};

use crate::pick::holding_in;
use aig_eval::{is_legal, next_state, step_values};
use aig_model::{Bits, Circuit, LatchClauses};
use inv_cert::reset_state;
use ketch_base::OutOfMemory;
use rand_core::SeedableRng;
use rand_core::utils::NextWord;
use rand_xoshiro::Xoshiro256PlusPlus;
use std::alloc::Global;

/// How many rows of inputs the walk tries.
const ROWS: u32 = 256;

fn random_row(
    alloc: Global,
    circuit: &Circuit,
    generator: &mut Xoshiro256PlusPlus,
) -> Result<Bits, OutOfMemory>
    ensures { IfOk result (λ row. length row ≡ length circuit.now.inputs) }
{
    let mut row = Bits::all_false(alloc, circuit.inputs().len())?;
    for place in 0..row.len() {
        row.set(place, generator.next_word() & 1 == 1);
    }
    Ok(row)
}

/// Takes the step with this row, if the constraints allow it, and leaves out the clauses that don't hold after it.
fn take_step(
    alloc: Global,
    circuit: &Circuit,
    clauses: &mut LatchClauses,
    state: &mut Bits,
    row: &Bits,
) -> Result<(), OutOfMemory>
    requires latches { All (IsLatchClause circuit.now) clauses.old }
    requires size { length state.old ≡ length circuit.now.latches }
    requires row { length row.now ≡ length circuit.now.inputs }
    requires satisfied { SatisfiesClauses state.old clauses.old }
    ensures shrinks { OnOk result (Shrinks circuit.now clauses.old clauses.new) }
    ensures size { OnOk result (length state.new ≡ length circuit.now.latches) }
    ensures satisfied { OnOk result (SatisfiesClauses state.new clauses.new) }
{
    let values = step_values(alloc, circuit, state, row)?;
    if !is_legal(circuit, &values) {
        return Ok(());
    }
    let next = next_state(alloc, circuit, &values)?;
    *clauses = holding_in(alloc, circuit, clauses.as_slice(), &next)?;
    *state = next;
    Ok(())
}

/// Leaves out the clauses that a state of the walk breaks.
pub(crate) fn leave_out_by_walk(
    alloc: Global,
    circuit: &Circuit,
    clauses: &mut LatchClauses,
) -> Result<(), OutOfMemory>
    requires latches { All (IsLatchClause circuit.now) clauses.old }
    requires starts { All (HoldsAtReset circuit.now) clauses.old }
    ensures { OnOk result (Shrinks circuit.now clauses.old clauses.new) }
{
    let mut generator = Xoshiro256PlusPlus::seed_from_u64(0);
    let mut state = reset_state(alloc, circuit)?;
    for _ in 0..ROWS {
        let row = random_row(alloc, circuit, &mut generator)?;
        take_step(alloc, circuit, clauses, &mut state, &row)?;
    }
    Ok(())
}
