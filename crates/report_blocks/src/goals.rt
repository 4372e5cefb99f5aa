//! The blocks of goals.

ghost use Rattle.std.specs.Prelude.{◌≡◌, [], codes, IfOk};
ghost use Rattle.report_text.specs.Form.{IsCounted, FitsBlock};
ghost use Rattle.report_text.specs.Text.{goals_lines};
ghost use Rattle.report_lines.specs.Words.{Takes, until};
ghost use Rattle.report_lines.specs.Reading.{Gives, line_read};
ghost use Rattle.report_sections.specs.Pieces.{Reads};
ghost use Rattle.report_blocks.specs.Goals.{behind_goal, hop_of, reached_of, unreachable_of, depth_of, open_of, verdict_of, goal_line_of, block_rest, goals_read};

use crate::witness::read_witness;
use ketch_base::OutOfMemory;
use report_lines::{
    LineWords, ReportFault, TextLines, behind_name, last, small, take_number, take_small,
};
use report_sections::{ItemReader, Size, bound, read_proof, read_section};
use report_text::{GoalBlock, GoalBlocks, HopBound, HopBounds};
use std::alloc::Global;

/// What the first line of a goal's block tells.
#[derive(Debug, Drop)]
pub(crate) enum GoalLine {
    Reached {
        number: u64,
    },
    Unreachable {
        number: u64,
        inv: u32,
    },
    Open {
        depth: Option<u32>,
        hops: HopBounds,
        strength: Option<u32>,
    },
}

fn hop(word: &[u8]) -> Option<HopBound>
    ensures { result ≡ hop_of word.now }
{
    if word == b"none".as_slice() {
        return Some(HopBound::Nothing);
    }
    if word == b"noseed".as_slice() {
        return Some(HopBound::NoSeed);
    }
    Some(HopBound::To(small(word)?))
}

fn reached_in(words: LineWords<'_>) -> Option<GoalLine>
    ensures { result ≡ reached_of words.entry }
{
    let mut words = words;
    let number = take_number(&mut words)?;
    last(GoalLine::Reached { number }, words)
}

fn unreachable_in(words: LineWords<'_>) -> Option<GoalLine>
    ensures { result ≡ unreachable_of words.entry }
{
    let mut words = words;
    let number = take_number(&mut words)?;
    let mut words = behind_name(b"inv", words)?;
    let inv = take_small(&mut words)?;
    last(GoalLine::Unreachable { number, inv }, words)
}

/// The bound of the sweep, and the words behind `hops`.
fn depth_in(words: LineWords<'_>) -> Option<(Option<u32>, LineWords<'_>)>
    ensures { result ≡ depth_of words.entry }
{
    let mut words = behind_name(b"depth", words)?;
    let depth = bound(words.next()?)?;
    let words = behind_name(b"hops", words)?;
    Some((depth, words))
}

/// The hops' bounds, up to the word `strength`.
fn take_hops(alloc: Global, words: &mut LineWords<'_>) -> Result<Option<HopBounds>, OutOfMemory>
    ensures { IfOk result (λ o. Takes o words.new (until (codes "strength") hop_of [] words.old)) }
{
    let mut hops = HopBounds::new(alloc);
    while let Some(word) = words.next() {
        if word == b"strength".as_slice() {
            return Ok(Some(hops));
        }
        let Some(hop) = hop(word) else {
            return Ok(None);
        };
        hops.push(hop)?;
    }
    Ok(None)
}

fn open_in(alloc: Global, words: LineWords<'_>) -> Result<Option<GoalLine>, OutOfMemory>
    ensures { IfOk result (λ o. o ≡ open_of words.entry) }
{
    let Some((depth, mut words)) = depth_in(words) else {
        return Ok(None);
    };
    let Some(hops) = take_hops(alloc, &mut words)? else {
        return Ok(None);
    };
    let Some(word) = words.next() else {
        return Ok(None);
    };
    let Some(strength) = bound(word) else {
        return Ok(None);
    };
    let line = GoalLine::Open {
        depth,
        hops,
        strength,
    };
    Ok(last(line, words))
}

/// The words behind the goal, where the line is the goal's.
fn behind_goal(words: LineWords<'_>, goal: u32) -> Option<LineWords<'_>>
    ensures { result ≡ behind_goal goal words.entry }
{
    let mut words = behind_name(b"goal", words)?;
    if take_small(&mut words)? == goal {
        Some(words)
    } else {
        None
    }
}

fn verdict_in(alloc: Global, words: LineWords<'_>) -> Result<Option<GoalLine>, OutOfMemory>
    ensures { IfOk result (λ o. o ≡ verdict_of words.entry) }
{
    let mut words = words;
    let Some(verdict) = words.next() else {
        return Ok(None);
    };
    if verdict == b"reached".as_slice() {
        return Ok(reached_in(words));
    }
    if verdict == b"unreachable".as_slice() {
        return Ok(unreachable_in(words));
    }
    if verdict == b"open".as_slice() {
        open_in(alloc, words)
    } else {
        Ok(None)
    }
}

fn goal_in(alloc: Global, words: LineWords<'_>, goal: u32) -> Result<Option<GoalLine>, OutOfMemory>
    ensures { IfOk result (λ o. o ≡ goal_line_of goal words.entry) }
{
    let Some(words) = behind_goal(words, goal) else {
        return Ok(None);
    };
    verdict_in(alloc, words)
}

fn goal_line(alloc: Global, lines: &mut TextLines<'_>, goal: u32) -> Result<GoalLine, ReportFault>
    ensures { Gives result lines.new (line_read (goal_line_of goal) lines.old) }
{
    let line = goal_in(alloc, lines.words(), goal)?;
    lines.settle(line)
}

/// What follows the first line of a goal's block.
fn rest(
    alloc: Global,
    lines: &mut TextLines<'_>,
    size: Size,
    goal: u32,
    line: GoalLine,
) -> Result<GoalBlock, ReportFault>
    ensures { Gives result lines.new (block_rest size.inputs size.latches goal line lines.old) }
{
    match line {
        GoalLine::Reached { number } => {
            let witness = read_witness(alloc, lines, size, goal)?;
            Ok(GoalBlock::Reached { number, witness })
        }
        GoalLine::Unreachable { number, inv } => {
            let proof = read_proof(alloc, lines)?;
            Ok(GoalBlock::Unreachable { number, inv, proof })
        }
        GoalLine::Open {
            depth,
            hops,
            strength,
        } => Ok(GoalBlock::Open {
            depth,
            hops,
            strength,
        }),
    }
}

#[derive(Drop)]
struct BlockReader {
    size: Size,
}

impl ItemReader for BlockReader {
    type Item = GoalBlock;

    ghost use Rattle.report_blocks.specs.Goals.{block_read};

    ghost told = { λ b. block_read b.size.inputs b.size.latches };

    fn read(
        &self,
        alloc: Global,
        lines: &mut TextLines<'_>,
        goal: u32,
    ) -> Result<GoalBlock, ReportFault> {
        let line = goal_line(alloc, lines, goal)?;
        let block = rest(alloc, lines, self.size, goal, line)?;
        Ok(block)
    }
}

/// The section of the goals.
pub fn read_goals(
    alloc: Global,
    lines: &mut TextLines<'_>,
    size: Size,
) -> Result<GoalBlocks, ReportFault>
    ensures gives { Gives result lines.new (goals_read size.inputs size.latches lines.old) }
    ensures reads { Reads (IsCounted (FitsBlock size.inputs size.latches)) goals_lines lines.old result lines.new }
{
    read_section(alloc, lines, b"goals", &BlockReader { size })
}
