//! Sections, one behind the other.

ghost use Rattle.std.specs.Prelude.{◌≡◌};
ghost use Rattle.report_lines.specs.Reading.{Gives};
ghost use Rattle.report_reading.specs.Sections.{head_read, findings_read, verdicts_read};

use board_core::Entries;
use report_blocks::{read_goals, read_refutes, read_spents};
use report_lines::{ReportFault, TextLines};
use report_sections::{
    Size, read_history, read_invs, read_options, read_seeds, read_size, read_title,
};
use report_text::{Blocks, GoalBlocks, Invs, SeedLines};
use sim_walk::Options;
use std::alloc::Global;

/// What is known before the history.
#[derive(Clone, Copy, Debug, PartialEq, Eq)]
pub(crate) struct Head {
    pub size: Size,
    pub options: Options,
}

/// What a run found, and what the proofs of its verdicts share.
#[derive(Debug, Drop)]
pub(crate) struct Findings {
    pub history: Entries,
    pub seeds: SeedLines,
    pub invs: Invs,
}

/// What a run says of the goals and of its queries.
#[derive(Debug, Drop)]
pub(crate) struct Verdicts {
    pub goals: GoalBlocks,
    pub spents: Blocks,
    pub refutes: Blocks,
}

pub(crate) fn read_head(lines: &mut TextLines<'_>) -> Result<Head, ReportFault>
    ensures { Gives result lines.new (head_read lines.old) }
{
    read_title(lines)?;
    let size = read_size(lines)?;
    let options = read_options(lines)?;
    Ok(Head { size, options })
}

pub(crate) fn read_findings(
    alloc: Global,
    lines: &mut TextLines<'_>,
    size: Size,
) -> Result<Findings, ReportFault>
    ensures { Gives result lines.new (findings_read size.inputs size.latches lines.old) }
{
    let history = read_history(alloc, lines)?;
    let seeds = read_seeds(alloc, lines, size)?;
    let invs = read_invs(alloc, lines)?;
    Ok(Findings {
        history,
        seeds,
        invs,
    })
}

pub(crate) fn read_verdicts(
    alloc: Global,
    lines: &mut TextLines<'_>,
    size: Size,
) -> Result<Verdicts, ReportFault>
    ensures { Gives result lines.new (verdicts_read size.inputs size.latches lines.old) }
{
    let goals = read_goals(alloc, lines, size)?;
    let spents = read_spents(alloc, lines)?;
    let refutes = read_refutes(alloc, lines)?;
    Ok(Verdicts {
        goals,
        spents,
        refutes,
    })
}
