//! Laws of the format.

ghost use Rattle.std.specs.Prelude.{◌≡◌, ◌⊎◌, ℕ, List};
ghost use Rattle.aig_model.specs.WellFormed.{IsCircuit};
ghost use Rattle.aig_model.specs.declared.parts.Parts.{Parts};
ghost use Rattle.aig_ascii.specs.Aag.{SpellsCircuit, IsFirstFault};
ghost use Rattle.aig_ascii.specs.declared.fault.AagKind.{AagKind};

/// Each text spells one circuit, or it has one first fault.
pub fn each_text_is_read_one_way()
    ensures some { (text : List ℕ) → ((c : Parts) × SpellsCircuit text c)
        ⊎ ((at : ℕ) × (kind : AagKind) × IsFirstFault text at kind) }
    ensures one_circuit { (text : List ℕ) (c d : Parts) → SpellsCircuit text c → SpellsCircuit text d → c ≡ d }
    ensures one_fault { (text : List ℕ) (m n : ℕ) (j k : AagKind) →
        IsFirstFault text m j → IsFirstFault text n k → (m ≡ n) × (j ≡ k) }
    ensures not_both { (text : List ℕ) (c : Parts) (at : ℕ) (kind : AagKind) →
        SpellsCircuit text c → ¬ IsFirstFault text at kind }
{}

/// The circuit that a text spells is well formed.
pub fn spelled_circuits_are_well_formed()
    ensures { (text : List ℕ) (c : Parts) → SpellsCircuit text c → IsCircuit c }
{}
