//! Which clauses hold at reset.

ghost use Rattle.std.specs.Prelude.{◌≡◌, ◌<◌, ◌^◌, ◌↔◌, ℤ, List, length, All, Contains, IfOk, IsTrue, MatchOption};
ghost use Rattle.ketch_base.specs.First.{IsFirst};
ghost use Rattle.aig_model.specs.Meaning.{IsReset};
ghost use Rattle.aig_model.specs.LatchClauses.{IsLatchClause, NamesLatch, SatisfiesClause};
ghost use Rattle.inv_cert.specs.Resets.{HoldsAtReset, FailsAtReset, IsFalsified};

use crate::literal::{is_negated, latch_of, literal_value};
use aig_model::{Bits, Circuit, LatchClause, Reset};
use ketch_base::OutOfMemory;
use std::alloc::Global;

/// Some reset state.
pub fn reset_state(alloc: Global, circuit: &Circuit) -> Result<Bits, OutOfMemory>
    ensures { IfOk result (IsReset circuit.now) }
{
    let latches = circuit.latches();
    let mut state = Bits::all_false(alloc, latches.len())?;
    for place in 0..latches.len() {
        state.set(place, latches.get(place).reset == Reset::One);
    }
    Ok(state)
}

/// Makes the literal false, where its latch has no fixed reset.
fn falsify_literal(circuit: &Circuit, lit: &i32, state: &mut Bits)
    requires latch { NamesLatch circuit.now lit.now }
    requires reset { IsReset circuit.now state.old }
    ensures reset { IsReset circuit.now state.new }
    ensures falsified { (clause : List ℤ) → Contains clause lit.now → IsFalsified circuit.now clause state.new lit.now }
    ensures others { (clause : List ℤ) (other : ℤ) → Contains clause lit.now → NamesLatch circuit.now other
        → IsFalsified circuit.now clause state.old other → IsFalsified circuit.now clause state.new other }
{
    let latch = latch_of(*lit);
    if circuit.latches().get(latch).reset == Reset::Free {
        state.set(latch, is_negated(*lit));
    }
}

/// Changes a reset state so that it falsifies as much of the clause as reset states do.
fn falsify(circuit: &Circuit, clause: &[i32], state: &mut Bits)
    requires latches { All (NamesLatch circuit.now) clause.now }
    requires reset { IsReset circuit.now state.old }
    ensures reset { IsReset circuit.now state.new }
    ensures falsified { All (IsFalsified circuit.now clause.now state.new) clause.now }
{
    for lit in clause {
        falsify_literal(circuit, lit, state);
    }
}

/// Whether the clause holds in the state.
pub fn satisfies(circuit: &Circuit, state: &Bits, clause: &[i32]) -> bool
    requires latches { All (NamesLatch circuit.now) clause.now }
    requires size { length state.now ≡ length circuit.now.latches }
    ensures { IsTrue result ↔ SatisfiesClause state.now clause.now }
{
    clause.iter().any(|lit| literal_value(state, *lit))
}

/// Whether every reset state satisfies the clause. Takes any reset state to work on.
pub fn holds_at_reset(circuit: &Circuit, clause: &[i32], state: &mut Bits) -> bool
    requires latches { All (NamesLatch circuit.now) clause.now }
    requires reset { IsReset circuit.now state.old }
    ensures reset { IsReset circuit.now state.new }
    ensures holds { IsTrue result ↔ HoldsAtReset circuit.now clause.now }
{
    falsify(circuit, clause, state);
    satisfies(circuit, state, clause)
}

/// The first clause that some reset state falsifies.
pub(crate) fn first_failing(
    alloc: Global,
    circuit: &Circuit,
    clauses: &[LatchClause],
) -> Result<Option<u32>, OutOfMemory>
    requires latches { All (IsLatchClause circuit.now) clauses.now }
    requires few { length clauses.now < 2 ^ 32 }
    ensures { IfOk result (λ first. MatchOption first (All (HoldsAtReset circuit.now) clauses.now) (IsFirst (FailsAtReset circuit.now clauses.now))) }
{
    let mut state = reset_state(alloc, circuit)?;
    for (place, clause) in clauses.iter().enumerate() {
        if !holds_at_reset(circuit, clause.as_slice(), &mut state) {
            return Ok(Some(place as u32));
        }
    }
    Ok(None)
}
