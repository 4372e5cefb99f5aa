//! Whether a start agrees with the resets.

ghost use Rattle.std.specs.Prelude.{◌≡◌, ◌↔◌, length, IsTrue, MatchOption};
ghost use Rattle.ketch_base.specs.First.{IsFirst};
ghost use Rattle.aig_model.specs.Meaning.{Agrees, IsReset};
ghost use Rattle.aig_eval.specs.Replay.{StartsWrong};

use aig_model::{Bits, Circuit, Reset};

fn agrees(reset: Reset, value: bool) -> bool
    ensures { IsTrue result ↔ Agrees reset value }
{
    match reset {
        Reset::Zero => !value,
        Reset::One => value,
        Reset::Free => true,
    }
}

/// The first latch whose value differs from its fixed reset.
pub(crate) fn first_wrong(circuit: &Circuit, start: &Bits) -> Option<u32>
    requires { length start.now ≡ length circuit.now.latches }
    ensures { MatchOption result (IsReset circuit.now start.now) (IsFirst (StartsWrong circuit.now start.now)) }
{
    circuit.is_well_formed();
    let latches = circuit.latches();
    for place in 0..latches.len() {
        if !agrees(latches.get(place).reset, start.get(place)) {
            return Some(place as u32);
        }
    }
    None
}
