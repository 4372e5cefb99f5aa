//! The clause that is a literal's reason.

ghost use Rattle.std.specs.Prelude.{◌≡◌, ℕ, ◌<◌, ◌≤◌, nat_abs, None, MatchOption, length};
ghost use Rattle.sat_trail.specs.Trail.{Assignment};
ghost use Rattle.sat_learn.specs.Premises.{AreExplained, IsAntecedentIn};
ghost use Rattle.sat_learn.specs.Resolving.{StandsAt, IsForcedAt};

use crate::premises::Premises;
use cnf_base::CnfLit;
use sat_trail::ClauseId;

/// How deep a walk down the reasons goes, so that it needs little stack.
pub const DEPTH: u32 = 500;

/// A clause's literals, where one that is forced by a unit clause may be left out, and the hint for the clause.
#[derive(Clone, Copy, Debug)]
pub struct Antecedent<'a> {
    pub lits: &'a [CnfLit],
    pub hint: i64,
}

/// A decision has none, and neither has a variable that is unassigned.
pub fn find_antecedent<'a>(premises: &'a Premises, var: u32) -> Option<Antecedent<'a>>
    requires explained { AreExplained premises.now }
    requires not_zero { 0 < var }
    requires in_range { var ≤ premises.now.trail.vars }
    ensures { (place : ℕ) (p : Assignment) → StandsAt premises.now.trail.assignments place p → nat_abs p.lit ≡ var
        → MatchOption result (p.reason ≡ None)
        (λ found. IsAntecedentIn premises.now place p found.lits.now found.hint) }
{
    match premises.trail.reason_of(var) {
        Some(ClauseId::Book(at)) => Some(Antecedent {
            lits: premises.book.clause(ClauseId::Book(at)),
            hint: premises.proof_ids[at as usize] as i64,
        }),
        Some(ClauseId::Unit(id)) => Some(Antecedent {
            lits: &[],
            hint: id as i64,
        }),
        None => None,
    }
}

/// That of a literal that isn't a decision.
pub fn antecedent_of<'a>(premises: &'a Premises, place: u32) -> Antecedent<'a>
    requires explained { AreExplained premises.now }
    requires forced { IsForcedAt premises.now.trail.assignments place }
    ensures { (p : Assignment) → StandsAt premises.now.trail.assignments place p
        → IsAntecedentIn premises.now place p result.lits.now result.hint }
{
    match find_antecedent(premises, premises.trail.at(place).var()) {
        Some(found) => found,
        None => unreachable!(),
    }
}
