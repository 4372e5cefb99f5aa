//! Laws of the format.

ghost use Rattle.std.specs.Prelude.{◌≡◌, ◌⊎◌, ℕ, List};
ghost use Rattle.aig_model.specs.WellFormed.{IsCircuit};
ghost use Rattle.aig_model.specs.declared.parts.Parts.{Parts};
ghost use Rattle.aig_binary.specs.Aig.{SpellsCircuit, IsFirstFault};
ghost use Rattle.aig_binary.specs.BinaryOrder.{IsBinary, IsNotBinary};
ghost use Rattle.aig_binary.specs.declared.fault.AigKind.{AigKind};

/// Each file spells one circuit, or it has one first fault.
pub fn each_file_is_read_one_way()
    ensures some { (bytes : List ℕ) → ((c : Parts) × SpellsCircuit bytes c)
        ⊎ ((at : ℕ) × (kind : AigKind) × IsFirstFault bytes at kind) }
    ensures one_circuit { (bytes : List ℕ) (c d : Parts) → SpellsCircuit bytes c → SpellsCircuit bytes d → c ≡ d }
    ensures one_fault { (bytes : List ℕ) (m n : ℕ) (j k : AigKind) →
        IsFirstFault bytes m j → IsFirstFault bytes n k → (m ≡ n) × (j ≡ k) }
    ensures not_both { (bytes : List ℕ) (c : Parts) (at : ℕ) (kind : AigKind) →
        SpellsCircuit bytes c → ¬ IsFirstFault bytes at kind }
{}

/// The circuit that a file spells is well formed, and stands in the order of a binary file.
pub fn spelled_circuits_are_well_formed()
    ensures circuit { (bytes : List ℕ) (c : Parts) → SpellsCircuit bytes c → IsCircuit c }
    ensures binary { (bytes : List ℕ) (c : Parts) → SpellsCircuit bytes c → IsBinary c }
{}
