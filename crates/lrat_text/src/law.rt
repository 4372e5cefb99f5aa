//! Laws of the format.

ghost use Rattle.std.specs.Prelude.{◌≡◌, ◌⊎◌, ℕ, List};
ghost use Rattle.lrat_text.specs.Lrat.{SpellsProof, IsFirstFault};
ghost use Rattle.lrat_text.specs.Text.{proof_text, IsWritable, HasProofLiterals};
ghost use Rattle.lrat_text.specs.declared.fault.LratKind.{LratKind};
ghost use Rattle.lrat_text.specs.declared.proof.LratStep.{LratStep};

/// Each text spells one proof, or it has one first fault.
pub fn each_text_is_read_one_way()
    ensures some { (text : List ℕ) → ((p : List LratStep) × SpellsProof text p)
        ⊎ ((line : ℕ) × (kind : LratKind) × IsFirstFault text line kind) }
    ensures one_proof { (text : List ℕ) (p q : List LratStep) →
        SpellsProof text p → SpellsProof text q → p ≡ q }
    ensures one_fault { (text : List ℕ) (m n : ℕ) (k l : LratKind) →
        IsFirstFault text m k → IsFirstFault text n l → (m ≡ n) × (k ≡ l) }
    ensures not_both { (text : List ℕ) (p : List LratStep) (line : ℕ) (kind : LratKind) →
        SpellsProof text p → ¬ IsFirstFault text line kind }
{}

/// What texts spell is exactly what can be written, and the text of such a proof spells that proof and no other.
pub fn writable_proofs_are_read_back()
    ensures spelled { (text : List ℕ) (p : List LratStep) →
        SpellsProof text p → IsWritable p × HasProofLiterals p }
    ensures reads_back { (p : List LratStep) →
        IsWritable p → HasProofLiterals p → SpellsProof (proof_text p) p }
    ensures alone { (p q : List LratStep) →
        IsWritable p → HasProofLiterals p → SpellsProof (proof_text p) q → q ≡ p }
{}
