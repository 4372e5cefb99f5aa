//! A literal that decisions imply: the clause of the literal and their negations, found by a walk down the trail.

ghost use Rattle.std.specs.Prelude.{◌≡◌, ℕ, ℤ, List, ◌+◌, ◌<◌, ◌≤◌, IsTrue, IsSome, false, neg_ℤ, map, reverse, length, slice_index_or, IfOk, OnOk};
ghost use Rattle.cnf_base.specs.Status.{has};
ghost use Rattle.sat_trail.specs.Trail.{Assignment, lits, IsTrail};
ghost use Rattle.sat_learn.specs.Premises.{AreExplained, AreLive, IsTracedIn};
ghost use Rattle.sat_learn.specs.Reasons.{Follows};
ghost use Rattle.sat_learn.specs.Resolving.{StandsAt};
ghost use Rattle.sat_learn.specs.Implying.{ImpliesByDecisions};

use crate::antecedent::{antecedent_of, find_antecedent};
use crate::learned_clause::in_order;
use crate::marks::mark_all;
use crate::premises::Premises;
use cnf_base::CnfLit;
use ketch_base::OutOfMemory;
use lrat_text::Hints;
use sat_trail::Trail;
use std::alloc::Global;

/// A clause of a literal and negated decisions, and the hints by which it follows.
#[derive(Debug, Drop)]
pub struct Implication {
    pub lits: Vec<CnfLit>,
    pub hints: Hints,
}

/// The place of a literal that is true.
pub fn place_of(trail: &Trail, lit: CnfLit) -> u32
    requires { IsTrue (has (lits trail.now.assignments) lit) }
    ensures { (p : Assignment) × StandsAt trail.now.assignments result p × (p.lit ≡ lit) }
{
    let mut place = trail.len();
    while place > 0 {
        place -= 1;
        if trail.at(place) == lit {
            return place;
        }
    }
    unreachable!()
}

/// Resolves the literal at this place, if it is marked; of a decision that is marked it takes the negation.
fn resolve_or_take(
    premises: &Premises,
    marks: &mut [bool],
    taken: &mut Vec<CnfLit>,
    hints: &mut Vec<i64>,
    place: u32,
) -> Result<(), OutOfMemory>
    requires explained { AreExplained premises.now }
    requires room { length marks.old ≡ premises.now.trail.vars + 1 }
    requires within { place < length premises.now.trail.assignments }
    ensures { OnOk result ((top : ℕ) (p : Assignment) → place < top
        → IsTracedIn premises.now top p (place + 1) marks.old taken.old.items hints.old.items
        → IsTracedIn premises.now top p place marks.new taken.new.items hints.new.items) }
{
    let lit = premises.trail.at(place);
    if !marks[lit.var() as usize] {
        return Ok(());
    }
    match find_antecedent(premises, lit.var()) {
        None => {
            taken.push(lit.negation())?;
            Ok(())
        }
        Some(found) => {
            hints.push(found.hint)?;
            mark_all(marks, found.lits);
            marks[lit.var() as usize] = false;
            Ok(())
        }
    }
}

/// The clause of a true literal that is no decision, and of negations of decisions, where no variable is marked before.
pub fn trace(
    alloc: Global,
    premises: &Premises,
    marks: &mut [bool],
    lit: CnfLit,
) -> Result<Implication, OutOfMemory>
    requires explained { AreExplained premises.now }
    requires room { length marks.old ≡ premises.now.trail.vars + 1 }
    requires unmarked { (v : ℕ) → slice_index_or marks.old v false ≡ false }
    requires implied { (place : ℕ) × (p : Assignment) × StandsAt premises.now.trail.assignments place p × (p.lit ≡ lit) × IsSome p.reason }
    ensures implication { IfOk result (λ found. ImpliesByDecisions premises.now.trail.assignments lit found.lits.items) }
    ensures follows { IfOk result (λ found. (live : List (ℕ × List ℤ)) → AreLive live premises.now → Follows live (map neg_ℤ found.lits.items) found.hints) }
{
    let top = place_of(&premises.trail, lit);
    let own = antecedent_of(premises, top);
    let mut taken = Vec::new(alloc);
    taken.push(lit)?;
    let mut hints = Vec::new(alloc);
    hints.push(own.hint)?;
    marks[lit.var() as usize] = true;
    mark_all(marks, own.lits);
    let mut place = top;
    while place > 0 {
        place -= 1;
        resolve_or_take(premises, marks, &mut taken, &mut hints, place)?;
    }
    Ok(Implication {
        lits: taken,
        hints: in_order(hints),
    })
}
