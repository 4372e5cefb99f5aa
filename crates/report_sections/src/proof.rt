//! Proofs.

ghost use Rattle.std.specs.Prelude.{◌≡◌, ◌≢◌, pos, [], codes, IfOk, IfSome};
ghost use Rattle.std.specs.Option.{option_map};
ghost use Rattle.report_text.specs.Form.{FitsProof};
ghost use Rattle.report_text.specs.Text.{proof_lines};
ghost use Rattle.report_lines.specs.Words.{Takes, until, word};
ghost use Rattle.report_lines.specs.Reading.{Gives};
ghost use Rattle.report_sections.specs.Pieces.{Reads};
ghost use Rattle.report_sections.specs.Proofs.{hint_of, literal_of, id_of, addition_of, deletion_of, after_id, step_of, proof_read};

use crate::items::{ItemReader, read_section};
use cnf_base::{Clause, CnfLit};
use ketch_base::OutOfMemory;
use lrat_text::{Hints, Ids, LratStep, Proof};
use report_lines::{LineWords, ReportFault, TextLines, last, signed};
use std::alloc::Global;
use text_words::decimal_number;

fn hint(word: &[u8]) -> Option<i64>
    ensures { result ≡ hint_of word.now }
{
    let number = signed(word)?;
    if number == 0 { None } else { Some(number) }
}

/// A literal, which has 32 bits.
pub(crate) fn literal(word: &[u8]) -> Option<i32>
    ensures told { result ≡ literal_of word.now }
    ensures not_zero { IfSome result (λ z. z ≢ pos 0) }
{
    let number = hint(word)?;
    if number < i64::from(i32::MIN) || number > i64::from(i32::MAX) {
        return None;
    }
    Some(number as i32)
}

fn id(word: &[u8]) -> Option<u64>
    ensures { result ≡ id_of word.now }
{
    let number = decimal_number(word)?;
    if number == 0 {
        return None;
    }
    if number < 1 << 63 { Some(number) } else { None }
}

fn take_id(words: &mut LineWords<'_>) -> Option<u64>
    ensures { Takes result words.new (word id_of words.old) }
{
    id(words.next()?)
}

/// The literals up to a 0.
fn take_literals(
    alloc: Global,
    words: &mut LineWords<'_>,
) -> Result<Option<Vec<CnfLit>>, OutOfMemory>
    ensures { IfOk result (λ o. Takes (option_map (λ lits. lits.items) o) words.new (until (codes "0") literal_of [] words.old)) }
{
    let mut lits = Vec::new(alloc);
    while let Some(word) = words.next() {
        if word == b"0".as_slice() {
            return Ok(Some(lits));
        }
        let Some(number) = literal(word) else {
            return Ok(None);
        };
        lits.push(CnfLit::new(number))?;
    }
    Ok(None)
}

fn take_hints(alloc: Global, words: &mut LineWords<'_>) -> Result<Option<Hints>, OutOfMemory>
    ensures { IfOk result (λ o. Takes o words.new (until (codes "0") hint_of [] words.old)) }
{
    let mut hints = Hints::new(alloc);
    while let Some(word) = words.next() {
        if word == b"0".as_slice() {
            return Ok(Some(hints));
        }
        let Some(number) = hint(word) else {
            return Ok(None);
        };
        hints.push(number)?;
    }
    Ok(None)
}

fn take_ids(alloc: Global, words: &mut LineWords<'_>) -> Result<Option<Ids>, OutOfMemory>
    ensures { IfOk result (λ o. Takes o words.new (until (codes "0") id_of [] words.old)) }
{
    let mut ids = Ids::new(alloc);
    while let Some(word) = words.next() {
        if word == b"0".as_slice() {
            return Ok(Some(ids));
        }
        let Some(number) = id(word) else {
            return Ok(None);
        };
        ids.push(number)?;
    }
    Ok(None)
}

fn addition(alloc: Global, id: u64, words: LineWords<'_>) -> Result<Option<LratStep>, OutOfMemory>
    ensures { IfOk result (λ o. o ≡ addition_of id words.entry) }
{
    let mut words = words;
    let Some(lits) = take_literals(alloc, &mut words)? else {
        return Ok(None);
    };
    let Some(hints) = take_hints(alloc, &mut words)? else {
        return Ok(None);
    };
    let lits = Clause::from_slice(alloc, lits.as_slice())?;
    Ok(last(LratStep::Add { id, lits, hints }, words))
}

fn deletion(alloc: Global, at: u64, words: LineWords<'_>) -> Result<Option<LratStep>, OutOfMemory>
    ensures { IfOk result (λ o. o ≡ deletion_of at words.entry) }
{
    let mut words = words;
    let Some(ids) = take_ids(alloc, &mut words)? else {
        return Ok(None);
    };
    Ok(last(LratStep::Delete { at, ids }, words))
}

fn behind_id(alloc: Global, id: u64, words: LineWords<'_>) -> Result<Option<LratStep>, OutOfMemory>
    ensures { IfOk result (λ o. o ≡ after_id id words.entry) }
{
    let mut after = words.copy();
    let Some(word) = after.next() else {
        return Ok(None);
    };
    if word == b"d".as_slice() {
        deletion(alloc, id, after)
    } else {
        addition(alloc, id, words)
    }
}

fn step_in(alloc: Global, words: LineWords<'_>) -> Result<Option<LratStep>, OutOfMemory>
    ensures { IfOk result (λ o. o ≡ step_of words.entry) }
{
    let mut words = words;
    let Some(id) = take_id(&mut words) else {
        return Ok(None);
    };
    behind_id(alloc, id, words)
}

#[derive(Drop)]
struct StepReader;

impl ItemReader for StepReader {
    type Item = LratStep;

    ghost use Rattle.report_lines.specs.Reading.{line_read};
    ghost use Rattle.report_sections.specs.Proofs.{step_of};

    ghost told = { λ _ _ p. line_read step_of p };

    fn read(
        &self,
        alloc: Global,
        lines: &mut TextLines<'_>,
        _number: u32,
    ) -> Result<LratStep, ReportFault> {
        let step = step_in(alloc, lines.words())?;
        lines.settle(step)
    }
}

/// A proof: how many steps, and a line for each.
pub fn read_proof(alloc: Global, lines: &mut TextLines<'_>) -> Result<Proof, ReportFault>
    ensures gives { Gives result lines.new (proof_read lines.old) }
    ensures reads { Reads FitsProof proof_lines lines.old result lines.new }
{
    read_section(alloc, lines, b"proof", &StepReader)
}
