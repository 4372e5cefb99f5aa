//! Laws of the format, as clauses of functions that do nothing.

ghost use Rattle.std.specs.Prelude.{◌≡◌, ◌⊎◌, ℕ, List, length};
ghost use Rattle.wit_text.specs.WitnessText.{SpellsWitness, IsFirstFault, IsWritable, witness_text};
ghost use Rattle.wit_text.specs.declared.fault.WitKind.{WitKind};
ghost use Rattle.wit_text.specs.declared.witness.Witness.{Witness};

/// For so many latches and inputs each text spells one witness, or it has one first fault.
pub fn each_text_is_read_one_way()
    ensures some { (latches inputs : ℕ) (text : List ℕ) → ((w : Witness) × SpellsWitness latches inputs text w)
        ⊎ ((at : ℕ) × (kind : WitKind) × IsFirstFault latches inputs text at kind) }
    ensures one_witness { (latches inputs : ℕ) (text : List ℕ) (v w : Witness) →
        SpellsWitness latches inputs text v → SpellsWitness latches inputs text w → v ≡ w }
    ensures one_fault { (latches inputs : ℕ) (text : List ℕ) (m n : ℕ) (j k : WitKind) →
        IsFirstFault latches inputs text m j → IsFirstFault latches inputs text n k → (m ≡ n) × (j ≡ k) }
    ensures not_both { (latches inputs : ℕ) (text : List ℕ) (w : Witness) (at : ℕ) (kind : WitKind) →
        SpellsWitness latches inputs text w → ¬ IsFirstFault latches inputs text at kind }
{}

/// The text of a witness spells it again, and what texts spell are the witnesses that can be written.
pub fn written_witnesses_are_read_back()
    ensures reads_back { (w : Witness) → IsWritable w
        → SpellsWitness (length w.trace.start) w.trace.rows.width (witness_text w.property w.trace) w }
    ensures spelled { (latches inputs : ℕ) (text : List ℕ) (w : Witness) →
        SpellsWitness latches inputs text w → IsWritable w }
{}
