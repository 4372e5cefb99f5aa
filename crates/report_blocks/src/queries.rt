//! Queries: those that ran out of lemmas, and those that have no model.

ghost use Rattle.std.specs.Prelude.{◌≡◌, [], codes, IfOk, IsTrue};
ghost use Rattle.aig_model.specs.Goals.{IsAboveLast};
ghost use Rattle.report_text.specs.Form.{IsCounted, FitsSpent, FitsRefute};
ghost use Rattle.report_text.specs.Text.{spents_lines, refutes_lines};
ghost use Rattle.report_text.specs.declared.report.BlockName.TheVariants as names;
ghost use Rattle.report_lines.specs.Reading.{Gives, line_read};
ghost use Rattle.report_sections.specs.Pieces.{Reads, and_read};
ghost use Rattle.report_sections.specs.Proofs.{proof_read};
ghost use Rattle.report_sections.specs.Certs.{clauses_read};
ghost use Rattle.report_blocks.specs.Queries.{one_of, two_of, search_of, query_of, spent_of, refute_of, goals_from, blocked_of, search_rest, query_rest, query_read, spents_read, refutes_read, is_above};

use aig_model::{Goals, LatchClauses};
use ketch_base::OutOfMemory;
use lrat_text::Proof;
use report_lines::{LineWords, ReportFault, TextLines, behind_name, last, small, take_small};
use report_sections::{ItemReader, read_clauses, read_proof, read_section};
use report_text::{Block, BlockName, Blocks};
use std::alloc::Global;

/// What the first line of a query tells: a search's formula, or that of so many clauses.
#[derive(Clone, Copy, Debug, PartialEq, Eq)]
pub(crate) enum QueryLine {
    Sweep { step: u32 },
    Hop { batch: u32, step: u32 },
    Kept { place: u32, count: u32 },
    Excludes { goal: u32, count: u32 },
}

fn one_in(words: LineWords<'_>) -> Option<u32>
    ensures { result ≡ one_of words.entry }
{
    let mut words = words;
    let number = take_small(&mut words)?;
    last(number, words)
}

fn two_in(words: LineWords<'_>) -> Option<(u32, u32)>
    ensures { result ≡ two_of words.entry }
{
    let mut words = words;
    let first = take_small(&mut words)?;
    let second = take_small(&mut words)?;
    last((first, second), words)
}

fn search_in(words: LineWords<'_>) -> Option<QueryLine>
    ensures { result ≡ search_of words.entry }
{
    let mut words = words;
    let name = words.next()?;
    if name == b"sweep".as_slice() {
        let step = one_in(words)?;
        return Some(QueryLine::Sweep { step });
    }
    if name == b"hop".as_slice() {
        let (batch, step) = two_in(words)?;
        return Some(QueryLine::Hop { batch, step });
    }
    None
}

fn query_in(words: LineWords<'_>) -> Option<QueryLine>
    ensures { result ≡ query_of words.entry }
{
    let mut behind = words.copy();
    let name = behind.next()?;
    if name == b"kept".as_slice() {
        let (place, count) = two_in(behind)?;
        return Some(QueryLine::Kept { place, count });
    }
    if name == b"excludes".as_slice() {
        let (goal, count) = two_in(behind)?;
        return Some(QueryLine::Excludes { goal, count });
    }
    search_in(words)
}

fn spent_in(words: LineWords<'_>) -> Option<QueryLine>
    ensures { result ≡ spent_of words.entry }
{
    query_in(behind_name(b"spent", words)?)
}

fn refute_in(words: LineWords<'_>) -> Option<QueryLine>
    ensures { result ≡ refute_of words.entry }
{
    search_in(behind_name(b"refute", words)?)
}

fn is_above_last(goals: &Goals, goal: u32) -> bool
    ensures test { result ≡ is_above goals.now goal }
    ensures above { IsTrue result → IsAboveLast goals.now goal }
{
    let goals = goals.as_slice();
    goals.is_empty() || goals[goals.len() - 1] < goal
}

/// The goals that the words spell, where they rise.
fn goals_in(alloc: Global, words: LineWords<'_>) -> Result<Option<Goals>, OutOfMemory>
    ensures { IfOk result (λ o. o ≡ goals_from [] words.entry) }
{
    let mut words = words;
    let mut goals = Goals::new(alloc);
    while let Some(word) = words.next() {
        let Some(goal) = small(word) else {
            return Ok(None);
        };
        if !is_above_last(&goals, goal) {
            return Ok(None);
        }
        goals.push(goal)?;
    }
    Ok(Some(goals))
}

/// The goals of the line, where it has so many as it says.
fn blocked_in(alloc: Global, words: LineWords<'_>) -> Result<Option<Goals>, OutOfMemory>
    ensures { IfOk result (λ o. o ≡ blocked_of words.entry) }
{
    let Some(mut words) = behind_name(b"blocked", words) else {
        return Ok(None);
    };
    let Some(count) = take_small(&mut words) else {
        return Ok(None);
    };
    let Some(goals) = goals_in(alloc, words)? else {
        return Ok(None);
    };
    if goals.len() == count as usize {
        Ok(Some(goals))
    } else {
        Ok(None)
    }
}

fn blocked_line(alloc: Global, lines: &mut TextLines<'_>) -> Result<Goals, ReportFault>
    ensures { Gives result lines.new (line_read blocked_of lines.old) }
{
    let goals = blocked_in(alloc, lines.words())?;
    lines.settle(goals)
}

/// A search's query, behind its first line.
fn search(alloc: Global, lines: &mut TextLines<'_>, name: BlockName) -> Result<Block, ReportFault>
    ensures { Gives result lines.new (search_rest name lines.old) }
{
    let blocked = blocked_line(alloc, lines)?;
    let proof = read_proof(alloc, lines)?;
    Ok(Block {
        name,
        blocked,
        proof,
    })
}

/// So many clauses, and the proof that follows them.
fn clauses_and_proof(
    alloc: Global,
    lines: &mut TextLines<'_>,
    count: u32,
) -> Result<(LatchClauses, Proof), ReportFault>
    ensures { Gives result lines.new (and_read (clauses_read count lines.old) proof_read) }
{
    let clauses = read_clauses(alloc, lines, count)?;
    let proof = read_proof(alloc, lines)?;
    Ok((clauses, proof))
}

/// A query that leaves no goals out.
fn over_clauses(alloc: Global, name: BlockName, proof: Proof) -> Block
    ensures { result ≡ record { name = name; blocked = []; proof = proof } }
{
    Block {
        name,
        blocked: Goals::new(alloc),
        proof,
    }
}

/// What follows the first line of a query.
fn rest(alloc: Global, lines: &mut TextLines<'_>, line: QueryLine) -> Result<Block, ReportFault>
    ensures { Gives result lines.new (query_rest line lines.old) }
{
    match line {
        QueryLine::Sweep { step } => search(alloc, lines, BlockName::Sweep { step }),
        QueryLine::Hop { batch, step } => search(alloc, lines, BlockName::Hop { batch, step }),
        QueryLine::Kept { place, count } => {
            let (clauses, proof) = clauses_and_proof(alloc, lines, count)?;
            let name = BlockName::Kept { place, clauses };
            Ok(over_clauses(alloc, name, proof))
        }
        QueryLine::Excludes { goal, count } => {
            let (clauses, proof) = clauses_and_proof(alloc, lines, count)?;
            let name = BlockName::Excludes { goal, clauses };
            Ok(over_clauses(alloc, name, proof))
        }
    }
}

/// A query whose first line tells this.
fn query(
    alloc: Global,
    lines: &mut TextLines<'_>,
    line: Option<QueryLine>,
) -> Result<Block, ReportFault>
    ensures { Gives result lines.new (query_read line lines.old) }
{
    let line = lines.settle(line)?;
    let block = rest(alloc, lines, line)?;
    Ok(block)
}

#[derive(Drop)]
struct SpentReader;

impl ItemReader for SpentReader {
    type Item = Block;

    ghost use Rattle.report_blocks.specs.Queries.{spent_read};

    ghost told = { λ _ _ p. spent_read p };

    fn read(
        &self,
        alloc: Global,
        lines: &mut TextLines<'_>,
        _number: u32,
    ) -> Result<Block, ReportFault> {
        let line = spent_in(lines.words());
        query(alloc, lines, line)
    }
}

#[derive(Drop)]
struct RefuteReader;

impl ItemReader for RefuteReader {
    type Item = Block;

    ghost use Rattle.report_blocks.specs.Queries.{refute_read};

    ghost told = { λ _ _ p. refute_read p };

    fn read(
        &self,
        alloc: Global,
        lines: &mut TextLines<'_>,
        _number: u32,
    ) -> Result<Block, ReportFault> {
        let line = refute_in(lines.words());
        query(alloc, lines, line)
    }
}

/// The section of the queries that ran out of lemmas.
pub fn read_spents(alloc: Global, lines: &mut TextLines<'_>) -> Result<Blocks, ReportFault>
    ensures gives { Gives result lines.new (spents_read lines.old) }
    ensures reads { Reads (IsCounted FitsSpent) spents_lines lines.old result lines.new }
{
    read_section(alloc, lines, b"spents", &SpentReader)
}

/// The section of the queries that have no model.
pub fn read_refutes(alloc: Global, lines: &mut TextLines<'_>) -> Result<Blocks, ReportFault>
    ensures gives { Gives result lines.new (refutes_read lines.old) }
    ensures reads { Reads (IsCounted FitsRefute) refutes_lines lines.old result lines.new }
{
    read_section(alloc, lines, b"refutes", &RefuteReader)
}
