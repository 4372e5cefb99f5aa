//! The hints of one literal of level 0, found by a walk down its reasons.

ghost use Rattle.std.specs.Prelude.{◌≡◌, ℕ, ℤ, [], ◌∷◌, ◌+◌, ◌<◌, IsTrue, true, false, neg_ℤ, nat_abs, length, slice_set, slice_index_or, IfOk, IfSome, OnOk, ◌⊎◌};
ghost use Rattle.cnf_base.specs.Status.{has};
ghost use Rattle.sat_trail.specs.Trail.{lits, upto};
ghost use Rattle.sat_learn.specs.Premises.{AreExplained, IsFoundIn, IsExplanationIn};
ghost use Rattle.sat_learn.specs.Explaining.{IsNoted};
ghost use Rattle.sat_learn.specs.Resolving.{is_marked};

use crate::antecedent::{DEPTH, antecedent_of, find_antecedent};
use crate::marks::unmark_all;
use crate::premises::Premises;
use cnf_base::CnfLit;
use ketch_base::OutOfMemory;
use lrat_text::Hints;
use std::alloc::Global;

/// The hints so far, in their order, and the literals whose variables are marked.
#[derive(Drop)]
struct Derivation {
    hints: Vec<i64>,
    marked: Vec<CnfLit>,
}

fn new_derivation(alloc: Global) -> Derivation
    ensures hints { result.hints.items ≡ [] }
    ensures marked { result.marked.items ≡ [] }
{
    Derivation {
        hints: Vec::new(alloc),
        marked: Vec::new(alloc),
    }
}

/// Marks the variable of a literal.
fn mark(marks: &mut [bool], derivation: &mut Derivation, lit: CnfLit) -> Result<(), OutOfMemory>
    requires noted { IsNoted marks.old derivation.old.marked.items }
    requires in_range { nat_abs lit < length marks.old }
    ensures noted { OnOk result (IsNoted marks.new derivation.new.marked.items) }
    ensures marks { OnOk result (marks.new ≡ slice_set marks.old (nat_abs lit) true) }
    ensures hints { derivation.new.hints ≡ derivation.old.hints }
{
    derivation.marked.push(lit)?;
    marks[lit.var() as usize] = true;
    Ok(())
}

/// Adds the hints by which a false literal is so, where its variable isn't marked yet, and marks it. Each clause comes
/// after those that it rests on. False where that goes too deep, or comes to a decision.
fn derive(
    premises: &Premises,
    marks: &mut [bool],
    derivation: &mut Derivation,
    lit: CnfLit,
    depth: u32,
) -> Result<bool, OutOfMemory>
    requires explained { AreExplained premises.now }
    requires room { length marks.old ≡ premises.now.trail.vars + 1 }
    requires noted { IsNoted marks.old derivation.old.marked.items }
    requires known { IsTrue (is_marked marks.old lit) ⊎ IsTrue (has (lits premises.now.trail.assignments) (neg_ℤ lit)) }
    ensures noted { OnOk result (IsNoted marks.new derivation.new.marked.items) }
    ensures found { OnOk result (IsFoundIn premises.now (lit ∷ []) marks.old derivation.old.hints.items marks.new derivation.new.hints.items) }
    ensures marked { IfOk result (λ whole. IsTrue whole → IsTrue (is_marked marks.new lit)) }
{
    if marks[lit.var() as usize] {
        return Ok(true);
    }
    if depth == 0 {
        return Ok(false);
    }
    let Some(found) = find_antecedent(premises, lit.var()) else {
        return Ok(false);
    };
    for other in found.lits {
        if other.var() != lit.var() {
            let whole = derive(premises, marks, derivation, *other, depth - 1)?;
            if !whole {
                return Ok(false);
            }
        }
    }
    mark(marks, derivation, lit)?;
    derivation.hints.push(found.hint)?;
    Ok(true)
}

/// Adds the hints by which each of these literals is false.
fn derive_all(
    premises: &Premises,
    marks: &mut [bool],
    derivation: &mut Derivation,
    clause: &[CnfLit],
) -> Result<bool, OutOfMemory>
    requires explained { AreExplained premises.now }
    requires room { length marks.old ≡ premises.now.trail.vars + 1 }
    requires noted { IsNoted marks.old derivation.old.marked.items }
    requires known { (l : ℤ) → IsTrue (has clause.now l) → IsTrue (is_marked marks.old l) ⊎ IsTrue (has (lits premises.now.trail.assignments) (neg_ℤ l)) }
    ensures noted { OnOk result (IsNoted marks.new derivation.new.marked.items) }
    ensures found { OnOk result (IsFoundIn premises.now clause.now marks.old derivation.old.hints.items marks.new derivation.new.hints.items) }
    ensures marked { IfOk result (λ whole. IsTrue whole → (l : ℤ) → IsTrue (has clause.now l) → IsTrue (is_marked marks.new l)) }
{
    for lit in clause {
        let whole = derive(premises, marks, derivation, *lit, DEPTH)?;
        if !whole {
            return Ok(false);
        }
    }
    Ok(true)
}

/// Adds the hints by which the clause of the literal at this place follows, of level 0.
fn derive_at(
    premises: &Premises,
    marks: &mut [bool],
    derivation: &mut Derivation,
    place: u32,
) -> Result<bool, OutOfMemory>
    requires explained { AreExplained premises.now }
    requires room { length marks.old ≡ premises.now.trail.vars + 1 }
    requires unmarked { (v : ℕ) → slice_index_or marks.old v false ≡ false }
    requires new { (derivation.old.hints.items ≡ []) × (derivation.old.marked.items ≡ []) }
    requires at_root { place < length (upto 0 premises.now.trail.assignments) }
    ensures noted { OnOk result (IsNoted marks.new derivation.new.marked.items) }
    ensures follows { IfOk result (λ whole. IsTrue whole → IsExplanationIn premises.now place derivation.new.hints.items) }
{
    let own = antecedent_of(premises, place);
    mark(marks, derivation, premises.trail.at(place))?;
    let whole = derive_all(premises, marks, derivation, own.lits)?;
    derivation.hints.push(own.hint)?;
    Ok(whole)
}

/// The hints by which the clause of the literal at this place follows, of level 0, where no variable is marked before or
/// after.
pub fn explain_marked(
    alloc: Global,
    premises: &Premises,
    marks: &mut [bool],
    place: u32,
) -> Result<Option<Hints>, OutOfMemory>
    requires explained { AreExplained premises.now }
    requires room { length marks.old ≡ premises.now.trail.vars + 1 }
    requires unmarked { (v : ℕ) → slice_index_or marks.old v false ≡ false }
    requires at_root { place < length (upto 0 premises.now.trail.assignments) }
    ensures unmarked { OnOk result ((v : ℕ) → slice_index_or marks.new v false ≡ false) }
    ensures follows { IfOk result (λ found. IfSome found (IsExplanationIn premises.now place)) }
{
    let mut derivation = new_derivation(alloc);
    let whole = derive_at(premises, marks, &mut derivation, place)?;
    unmark_all(marks, &derivation.marked);
    if !whole {
        return Ok(None);
    }
    Ok(Some(Hints::from_vec(derivation.hints)))
}
