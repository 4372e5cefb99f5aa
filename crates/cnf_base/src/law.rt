//! Laws of the format, and of the status of a clause.

ghost use Rattle.std.specs.Prelude.{◌≡◌, ◌⊎◌, ◌↔◌, ℕ, ℤ, List};
ghost use Rattle.cnf_base.specs.Meaning.{CnfFormula};
ghost use Rattle.cnf_base.specs.Dimacs.{SpellsFormula, IsFirstFault};
ghost use Rattle.cnf_base.specs.Status.{clause_status, IsSatisfiedIn, IsFalsifiedIn, IsUnitIn, IsUnresolvedIn};
ghost use Rattle.cnf_base.specs.declared.clause_status.ClauseStatus.TheVariants.{Satisfied, Falsified, Unit, Unresolved};
ghost use Rattle.cnf_base.specs.declared.fault.DimacsKind.{DimacsKind};

/// Each text spells one formula, or it has one first fault.
pub fn each_text_is_read_one_way()
    ensures some { (text : List ℕ) → ((f : CnfFormula) × SpellsFormula text f)
        ⊎ ((line : ℕ) × (kind : DimacsKind) × IsFirstFault text line kind) }
    ensures one_formula { (text : List ℕ) (f g : CnfFormula) →
        SpellsFormula text f → SpellsFormula text g → f ≡ g }
    ensures one_fault { (text : List ℕ) (m n : ℕ) (k l : DimacsKind) →
        IsFirstFault text m k → IsFirstFault text n l → (m ≡ n) × (k ≡ l) }
    ensures not_both { (text : List ℕ) (f : CnfFormula) (line : ℕ) (kind : DimacsKind) →
        SpellsFormula text f → ¬ IsFirstFault text line kind }
{}

/// The status that is computed of a clause is the one that its literals have.
pub fn each_status_is_of_its_literals()
    ensures satisfied { (assumed clause : List ℤ) →
        (clause_status assumed clause ≡ Satisfied) ↔ IsSatisfiedIn assumed clause }
    ensures falsified { (assumed clause : List ℤ) →
        (clause_status assumed clause ≡ Falsified) ↔ IsFalsifiedIn assumed clause }
    ensures unit { (assumed clause : List ℤ) (l : ℤ) →
        (clause_status assumed clause ≡ Unit l) ↔ IsUnitIn assumed clause l }
    ensures unresolved { (assumed clause : List ℤ) →
        (clause_status assumed clause ≡ Unresolved) ↔ IsUnresolvedIn assumed clause }
{}
