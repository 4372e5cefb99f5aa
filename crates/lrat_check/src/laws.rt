//! What holds of the definitions.

ghost use Rattle.std.specs.Prelude.{◌≡◌, ◌↔◌, ◌<◌, ◌^◌, ℕ, List, None};
ghost use Rattle.cnf_base.specs.Meaning.{CnfFormula, HasNoModel};
ghost use Rattle.lrat_text.specs.declared.proof.LratStep.{LratStep};
ghost use Rattle.lrat_text.specs.Accepted.{Accepted};
ghost use Rattle.lrat_check.specs.FirstFault.{first_fault};
ghost use Rattle.lrat_text.specs.Spent.{SpentOn, Earned};
ghost use Rattle.lrat_check.specs.SpentFault.{spent_fault};

/// A proof is accepted exactly where it has no first fault.
pub fn accepted_without_fault()
    ensures { (formula : CnfFormula) (proof : List LratStep) → (first_fault formula proof ≡ None) ↔ Accepted formula proof }
{}

/// An accepted proof leaves no values of the variables that satisfy the formula.
pub fn accepted_refutes()
    ensures { (formula : CnfFormula) (proof : List LratStep) → Accepted formula proof → HasNoModel formula.clauses }
{}

/// A proof spends its lemmas exactly where it has no fault in this.
pub fn spent_without_fault()
    ensures { (formula : CnfFormula) (lemmas : ℕ) (proof : List LratStep) → (spent_fault formula lemmas proof ≡ None) ↔ SpentOn formula lemmas proof }
{}

/// Fewer lemmas are earned than there are clauses with each variable at most once.
pub fn earned_are_few()
    ensures { (formula : CnfFormula) (lemmas : ℕ) (proof : List LratStep) → SpentOn formula lemmas proof → Earned formula proof → lemmas < 3 ^ formula.vars }
{}
