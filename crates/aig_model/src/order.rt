//! The last test of `build`: no gate uses its own or a later left side. An `Err` holds the place of the first that does.

ghost use Rattle.std.specs.Prelude.{◌≡◌, ◌≢◌, ◌≤◌, ◌⊎◌, ◌↔◌, ◌∷◌, [], map, length, false, slice_index_or, AllPairs, Contains, IsTrue, OnOk, IfErr};
ghost use Rattle.ketch_base.specs.First.{IsFirst};
ghost use Rattle.aig_model.specs.Literal.{var};
ghost use Rattle.aig_model.specs.WellFormed.{left_sides, gate_literals, limit, IsOrdered};
ghost use Rattle.aig_model.specs.Faults.{IsMisplaced};
ghost use Rattle.aig_model.specs.Marks.{HaveRoom, Marks};

use crate::bits::Bits;
use crate::parts::AndGate;

/// Marks the left sides in values that are all false.
pub fn mark_left_sides(ahead: &mut Bits, gates: &[AndGate])
    requires room { HaveRoom ahead.old (gate_literals gates.now) }
    requires none { Marks ahead.old [] }
    ensures size { length ahead.new ≡ length ahead.old }
    ensures marks { Marks ahead.new (left_sides gates.now) }
{
    for gate in gates {
        ahead.set(gate.lhs.var() as usize, true);
    }
}

fn uses_marked(ahead: &Bits, gate: AndGate) -> bool
    requires { HaveRoom ahead.now (gate.left ∷ gate.right ∷ []) }
    ensures { IsTrue result ↔ (IsTrue (slice_index_or ahead.now (var gate.left) false) ⊎ IsTrue (slice_index_or ahead.now (var gate.right) false)) }
{
    ahead.get(gate.left.var() as usize) || ahead.get(gate.right.var() as usize)
}

/// `ahead` marks the left sides that are not passed yet.
pub fn check_order(ahead: &mut Bits, gates: &[AndGate]) -> Result<(), u32>
    requires room { HaveRoom ahead.old (gate_literals gates.now) }
    requires few { length gates.now ≤ limit }
    requires once { AllPairs (λ v w. v ≢ w) (map var (left_sides gates.now)) }
    requires marks { Marks ahead.old (left_sides gates.now) }
    ensures ok { OnOk result (IsOrdered gates.now) }
    ensures err { IfErr result (IsFirst (IsMisplaced gates.now)) }
{
    for (place, gate) in gates.iter().enumerate() {
        if uses_marked(ahead, *gate) {
            return Err(place as u32);
        }
        ahead.set(gate.lhs.var() as usize, false);
    }
    Ok(())
}
