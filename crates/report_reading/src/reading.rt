//! Reading a whole report.

ghost use Rattle.std.specs.Prelude.{◌≡◌, ◌+◌, ◌<◌, ◌^◌, ℕ, length, IfOk, IfErr, Ok, Err};
ghost use Rattle.report_text.specs.declared.report.Report.{Report};
ghost use Rattle.report_lines.specs.declared.fault.ReportKind.{ReportKind};
ghost use Rattle.report_lines.specs.declared.fault.ReportFault.TheVariants as faults;
ghost use Rattle.report_lines.specs.Reading.{Gives};
ghost use Rattle.report_reading.specs.Sections.{to_report, report_read, whole_read};
ghost use Rattle.report_reading.specs.Spelled.{SpellsReport, IsFirstFault, IsFault, Answers, GivesWhole};

use crate::sections::{Findings, Head, Verdicts, read_findings, read_head, read_verdicts};
use report_lines::{ReportFault, TextLines};
use report_sections::{Counts, read_end};
use report_text::Report;
use std::alloc::Global;

fn report(head: Head, findings: Findings, verdicts: Verdicts, counts: Counts) -> Report
    ensures { result ≡ to_report head (findings, (verdicts, counts)) }
{
    Report {
        inputs: head.size.inputs,
        latches: head.size.latches,
        signals: head.size.signals,
        options: head.options,
        history: findings.history,
        seeds: findings.seeds,
        invs: findings.invs,
        goals: verdicts.goals,
        spents: verdicts.spents,
        refutes: verdicts.refutes,
        reached: counts.reached,
        unreachable: counts.unreachable,
        unsettled: counts.unsettled,
    }
}

fn lines_of(alloc: Global, lines: &mut TextLines<'_>) -> Result<Report, ReportFault>
    ensures { Gives result lines.new (report_read lines.old) }
{
    let head = read_head(lines)?;
    let findings = read_findings(alloc, lines, head.size)?;
    let verdicts = read_verdicts(alloc, lines, head.size)?;
    let counts = read_end(lines)?;
    Ok(report(head, findings, verdicts, counts))
}

/// A line that follows the last one is at fault.
fn whole(alloc: Global, bytes: &[u8]) -> Result<Report, ReportFault>
    requires { length bytes.now + 1 < 2 ^ 32 }
    ensures { GivesWhole result (whole_read bytes.now) }
{
    let mut lines = TextLines::new(bytes);
    let report = lines_of(alloc, &mut lines)?;
    if !lines.is_done() {
        return Err(lines.fault());
    }
    Ok(report)
}

/// The report with this text. Nothing takes memory for a count that the text states.
pub fn read_report(alloc: Global, bytes: &[u8]) -> Result<Report, ReportFault>
    requires { length bytes.now + 1 < 2 ^ 32 }
    ensures report { IfOk result (SpellsReport bytes.now) }
    ensures fault { IfErr result (IsFault bytes.now) }

    // Each text of a report is read, and each first fault is answered.
    ensures every_report { (r : Report) → SpellsReport bytes.now r → Answers result (Ok r) }
    ensures every_fault { (line : ℕ) (kind : ReportKind) → IsFirstFault bytes.now line kind → Answers result (Err (faults.At line kind)) }
{
    whole(alloc, bytes)
}
