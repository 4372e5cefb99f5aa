//! What an assignment hands on, and whether it is legal.

ghost use Rattle.std.specs.Prelude.{◌≡◌, ◌+◌, ◌<◌, ◌↔◌, length, All, IfOk, IsTrue};
ghost use Rattle.aig_model.specs.Literal.{var, value_of};
ghost use Rattle.aig_model.specs.Meaning.{IsLegal, next_values};

use crate::step::value;
use aig_model::{Bits, Circuit, Lit};
use ketch_base::OutOfMemory;
use std::alloc::Global;

/// The state that an assignment hands on.
pub fn next_state(alloc: Global, circuit: &Circuit, values: &Bits) -> Result<Bits, OutOfMemory>
    requires { length values.now ≡ circuit.now.top + 1 }
    ensures { IfOk result (λ state. state ≡ next_values circuit.now values.now) }
{
    circuit.is_well_formed();
    let latches = circuit.latches();
    let mut state = Bits::all_false(alloc, latches.len())?;
    for place in 0..latches.len() {
        state.set(place, value(values, latches.get(place).next));
    }
    Ok(state)
}

fn are_true(values: &Bits, lits: &[Lit]) -> bool
    requires { All (λ lit. var lit < length values.now) lits.now }
    ensures { IsTrue result ↔ All (λ lit. IsTrue (value_of values.now lit)) lits.now }
{
    lits.iter().all(|lit| value(values, *lit))
}

/// Whether every constraint is true.
pub fn is_legal(circuit: &Circuit, values: &Bits) -> bool
    requires { length values.now ≡ circuit.now.top + 1 }
    ensures { IsTrue result ↔ IsLegal circuit.now values.now }
{
    circuit.is_well_formed();
    are_true(values, circuit.constraints().as_slice())
}
