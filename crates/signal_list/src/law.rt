//! Laws of the format.

ghost use Rattle.std.specs.Prelude.{◌≡◌, ◌⊎◌, ℕ, List};
ghost use Rattle.aig_model.specs.declared.parts.Parts.{Parts};
ghost use Rattle.aig_model.specs.SignalList.{IsSignals};
ghost use Rattle.aig_model.specs.WellFormed.{IsCircuit};
ghost use Rattle.signal_list.specs.SignalText.{SpellsSignals, IsFirstFault};
ghost use Rattle.signal_list.specs.declared.fault.SigKind.{SigKind};

/// Each text spells one list of signals of a circuit, or it has one first fault.
pub fn each_text_is_read_one_way()
    ensures some { (c : Parts) (text : List ℕ) → IsCircuit c → ((lits : List ℕ) × SpellsSignals c text lits)
        ⊎ ((line : ℕ) × (kind : SigKind) × IsFirstFault c text line kind) }
    ensures one_list { (c : Parts) (text k l : List ℕ) →
        SpellsSignals c text k → SpellsSignals c text l → k ≡ l }
    ensures one_fault { (c : Parts) (text : List ℕ) (m n : ℕ) (k l : SigKind) →
        IsFirstFault c text m k → IsFirstFault c text n l → (m ≡ n) × (k ≡ l) }
    ensures not_both { (c : Parts) (text lits : List ℕ) (line : ℕ) (kind : SigKind) →
        SpellsSignals c text lits → ¬ IsFirstFault c text line kind }
{}

/// The signals that a text spells are signals of the circuit.
pub fn spelled_signals_are_well_formed()
    ensures { (c : Parts) (text lits : List ℕ) → IsCircuit c → SpellsSignals c text lits → IsSignals c lits }
{}
