//! The step that a line spells.

ghost use Rattle.std.specs.Prelude.{[]};
ghost use Rattle.lrat_text.specs.Reading.{GivesOnLine, list_from, literal_of, hint_of, deleted_of, at_end, addition_of, deletion_of, step_of};

use crate::fault::LratKind;
use crate::proof::{Hints, Ids, LratStep};
use crate::word::{past_end, read_deleted, read_hint, read_id, read_literal};
use cnf_base::{Clause, CnfLit};
use std::alloc::Global;
use text_words::{LineFault, Words};

/// The step with these words.
pub fn read_step(
    alloc: Global,
    first: &[u8],
    rest: Words<'_>,
) -> Result<LratStep, LineFault<LratKind>>
    ensures { GivesOnLine (λ s. s) result (step_of first.now rest.entry) }
{
    let id = read_id(first)?;
    let mut after = rest.copy();
    match after.next() {
        None => Err(LineFault::Kind(LratKind::Truncated)),
        Some(b"d") => read_deletion(alloc, id, after),
        Some(_) => read_addition(alloc, id, rest),
    }
}

fn read_addition(alloc: Global, id: u64, words: Words<'_>) -> Result<LratStep, LineFault<LratKind>>
    ensures { GivesOnLine (λ s. s) result (addition_of id words.entry) }
{
    let (lits, words) = read_literals(alloc, words)?;
    let (hints, words) = read_hints(alloc, words)?;
    let lits = Clause::from_slice(alloc, lits.as_slice())?;
    let step = LratStep::Add {
        id,
        lits,
        hints: Hints::from_vec(hints),
    };
    check_end(step, words)
}

fn read_deletion(alloc: Global, at: u64, words: Words<'_>) -> Result<LratStep, LineFault<LratKind>>
    ensures { GivesOnLine (λ s. s) result (deletion_of at words.entry) }
{
    let (ids, words) = read_ids(alloc, words)?;
    let step = LratStep::Delete {
        at,
        ids: Ids::from_vec(ids),
    };
    check_end(step, words)
}

/// The step, where no word is left.
fn check_end(step: LratStep, words: Words<'_>) -> Result<LratStep, LineFault<LratKind>>
    ensures { GivesOnLine (λ s. s) result (at_end step words.entry) }
{
    let mut words = words;
    match words.next() {
        None => Ok(step),
        Some(word) => Err(LineFault::Kind(past_end(word))),
    }
}

/// The literals up to a 0, and the words after it.
fn read_literals(
    alloc: Global,
    words: Words<'_>,
) -> Result<(Vec<CnfLit>, Words<'_>), LineFault<LratKind>>
    ensures { GivesOnLine (λ r. (r.0.items, r.1)) result (list_from literal_of [] words.entry) }
{
    let mut words = words;
    let mut lits = Vec::new(alloc);
    while let Some(word) = words.next() {
        let Some(lit) = read_literal(word)? else {
            return Ok((lits, words));
        };
        lits.push(lit)?;
    }
    Err(LineFault::Kind(LratKind::Truncated))
}

fn read_hints(alloc: Global, words: Words<'_>) -> Result<(Vec<i64>, Words<'_>), LineFault<LratKind>>
    ensures { GivesOnLine (λ r. (r.0.items, r.1)) result (list_from hint_of [] words.entry) }
{
    let mut words = words;
    let mut hints = Vec::new(alloc);
    while let Some(word) = words.next() {
        let Some(hint) = read_hint(word)? else {
            hints.shrink_to_fit();
            return Ok((hints, words));
        };
        hints.push(hint)?;
    }
    Err(LineFault::Kind(LratKind::Truncated))
}

fn read_ids(alloc: Global, words: Words<'_>) -> Result<(Vec<u64>, Words<'_>), LineFault<LratKind>>
    ensures { GivesOnLine (λ r. (r.0.items, r.1)) result (list_from deleted_of [] words.entry) }
{
    let mut words = words;
    let mut ids = Vec::new(alloc);
    while let Some(word) = words.next() {
        let Some(id) = read_deleted(word)? else {
            ids.shrink_to_fit();
            return Ok((ids, words));
        };
        ids.push(id)?;
    }
    Err(LineFault::Kind(LratKind::Truncated))
}
