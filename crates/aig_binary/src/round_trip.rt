//! What a file that was written is read back as.

ghost use Rattle.std.specs.Prelude.{◌≤◌, ℕ, List, All};
ghost use Rattle.aig_ascii.specs.CircuitText.{AreInOrder};
ghost use Rattle.aig_model.specs.WellFormed.{IsCircuit};
ghost use Rattle.aig_model.specs.declared.parts.AndGate.{AndGate};
ghost use Rattle.aig_model.specs.declared.parts.Named.{Named};
ghost use Rattle.aig_model.specs.declared.parts.Parts.{Parts};
ghost use Rattle.aig_binary.specs.Aig.{SpellsCircuit};
ghost use Rattle.aig_binary.specs.BinaryOrder.{IsBinary};
ghost use Rattle.aig_binary.specs.CircuitFile.{IsFileOf};
ghost use Rattle.aig_binary.specs.RoundTrip.{ReadsBack};

/// The file of a circuit in the binary order spells the circuit again, with the larger input of each gate on the left.
/// Where it stands there already, as in every circuit that was read from a binary file, no gate changes.
pub fn written_files_read_back()
    ensures circuit { (c : Parts) (bytes : List ℕ) → IsCircuit c → IsBinary c → IsFileOf c bytes → ReadsBack c bytes }
    ensures same { (c : Parts) (bytes : List ℕ) → IsCircuit c → IsBinary c → IsFileOf c bytes →
        All (λ (g : AndGate). g.right ≤ g.left) c.gates →
        (names : List Named) × AreInOrder c.names names × SpellsCircuit bytes (record c { names = names }) }
{}
