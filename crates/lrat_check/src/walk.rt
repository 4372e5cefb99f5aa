//! The judgement of an addition: its negated literals are assumed, and its hints walked.

ghost use Rattle.std.specs.Prelude.{◌≡◌, [], neg_ℤ, map, false, IfOk};
ghost use Rattle.cnf_base.specs.Status.{clause_status, is_tautology};
ghost use Rattle.lrat_check.specs.FirstFault.{lemma_fault, hint_fault};
ghost use Rattle.lrat_check.specs.HintIds.{named_id};

use crate::assumed::{Assumed, Truth};
use crate::fault::ProofKind;
use crate::store::Store;
use cnf_base::{ClauseStatus, CnfLit};
use ketch_base::OutOfMemory;

/// A clause under the assumed literals.
fn clause_status(assumed: &Assumed, clause: &[CnfLit]) -> ClauseStatus
    ensures { result ≡ clause_status assumed.now clause.now }
{
    let mut so_far = ClauseStatus::Falsified;
    for lit in clause {
        match assumed.truth(*lit) {
            Truth::True => return ClauseStatus::Satisfied,
            Truth::False => {}
            Truth::Open => so_far = so_far.with_open_literal(*lit),
        }
    }
    so_far
}

/// Walks the hints from the assumed literals on: the first fault, if they don't end at a false clause.
fn walk_hints(
    store: &Store,
    assumed: &mut Assumed,
    hints: &[i64],
) -> Result<Option<ProofKind>, OutOfMemory>
    ensures { IfOk result (λ fault. fault ≡ hint_fault store.now.live assumed.old hints.now) }
{
    for hint in hints {
        let Some(id) = named_id(*hint) else {
            return Ok(Some(ProofKind::NegativeHint));
        };
        let Some(clause) = store.clause(id) else {
            return Ok(Some(ProofKind::UnknownId { id }));
        };
        match clause_status(assumed, clause) {
            ClauseStatus::Satisfied => {}
            ClauseStatus::Falsified => return Ok(None),
            ClauseStatus::Unit(lit) => assumed.assume(lit, false)?,
            ClauseStatus::Unresolved => return Ok(Some(ProofKind::NotUnit { hint: id })),
        }
    }
    Ok(Some(ProofKind::NoConflict))
}

/// The id that a hint names, unless it's negative.
fn named_id(hint: i64) -> Option<u64>
    ensures { result ≡ named_id hint }
{
    if hint < 0 {
        None
    } else {
        Some(hint.unsigned_abs())
    }
}

/// Assumes the negations of the literals up to the first that stands both ways, and tells whether there is one.
fn assume_negations(assumed: &mut Assumed, lits: &[CnfLit]) -> Result<bool, OutOfMemory>
    requires { assumed.old ≡ [] }
    ensures tautology { IfOk result (λ both. both ≡ is_tautology lits.now) }
    ensures assumed { IfOk result (λ both. both ≡ false → assumed.new ≡ map neg_ℤ lits.now) }
{
    for lit in lits {
        if let Truth::True = assumed.truth(*lit) {
            return Ok(true);
        }
        assumed.assume(*lit, true)?;
    }
    Ok(false)
}

fn judge_assuming(
    store: &Store,
    assumed: &mut Assumed,
    lits: &[CnfLit],
    hints: &[i64],
) -> Result<Option<ProofKind>, OutOfMemory>
    requires { assumed.old ≡ [] }
    ensures { IfOk result (λ fault. fault ≡ lemma_fault store.now.live lits.now hints.now) }
{
    if assume_negations(assumed, lits)? {
        return Ok(None);
    }
    walk_hints(store, assumed, hints)
}

/// What an addition lacks whose id is new.
pub fn judge_lemma(
    store: &Store,
    assumed: &mut Assumed,
    lits: &[CnfLit],
    hints: &[i64],
) -> Result<Option<ProofKind>, OutOfMemory>
    requires { assumed.old ≡ [] }
    ensures fault { IfOk result (λ fault. fault ≡ lemma_fault store.now.live lits.now hints.now) }
    ensures cleared { assumed.new ≡ [] }
{
    let judged = judge_assuming(store, assumed, lits, hints);
    assumed.clear();
    judged
}

/// Whether a literal stands both ways.
pub fn is_tautology(assumed: &mut Assumed, lits: &[CnfLit]) -> Result<bool, OutOfMemory>
    requires { assumed.old ≡ [] }
    ensures value { IfOk result (λ both. both ≡ is_tautology lits.now) }
    ensures cleared { assumed.new ≡ [] }
{
    let both = assume_negations(assumed, lits);
    assumed.clear();
    both
}
