//! The check of a report.

ghost use Rattle.std.specs.Prelude.{◌≡◌, ℕ, MatchResult, OnOk};
ghost use Rattle.ketch_base.specs.Exactly.{ErrExactly, OkExactly};
ghost use Rattle.report_text.specs.Form.{HasForm};
ghost use Rattle.report_check.specs.Conditions.{IsFault, IsFirstFault, IsUpheld, MeetsBefore};
ghost use Rattle.report_check.specs.Supports.{IsSupported};
ghost use Rattle.report_check.specs.declared.fault.CheckKind.{CheckKind};
ghost use Rattle.report_check.specs.declared.fault.Part.{Part};

use crate::fault::CheckFault;
use crate::goals::check_goals;
use crate::history::check_history;
use crate::invariants::check_invs;
use crate::refutes::check_refutes;
use crate::seeds::check_seeds;
use crate::sizes::{check_end, check_size};
use crate::spents::check_spents;
use aig_model::{Circuit, Signals};
use report_text::Report;
use std::alloc::Global;

/// What the run found: the history, the seeds, the clauses and the goals.
fn check_findings(
    alloc: Global,
    circuit: &Circuit,
    signals: &Signals,
    report: &Report,
) -> Result<(), CheckFault>
    requires signals { signals.now.circuit ≡ circuit.now }
    requires form { HasForm report.now }
    ensures { MatchResult result (λ _. MeetsBefore circuit.now signals.now.lits report.now Part.Spent) (IsFault circuit.now signals.now.lits report.now) }
{
    check_size(circuit, signals, report)?;
    check_history(alloc, circuit, signals, report)?;
    check_seeds(alloc, circuit, signals, report)?;
    check_invs(alloc, circuit, signals, report)?;
    check_goals(alloc, circuit, signals, report)?;
    Ok(())
}

/// What it left: the queries, and the counts.
fn check_queries(
    alloc: Global,
    circuit: &Circuit,
    signals: &Signals,
    report: &Report,
) -> Result<(), CheckFault>
    requires signals { signals.now.circuit ≡ circuit.now }
    requires form { HasForm report.now }
    requires before { MeetsBefore circuit.now signals.now.lits report.now Part.Spent }
    ensures { MatchResult result (λ _. IsUpheld circuit.now signals.now.lits report.now) (IsFault circuit.now signals.now.lits report.now) }
{
    check_spents(alloc, circuit, signals, report)?;
    check_refutes(alloc, circuit, signals, report)?;
    check_end(circuit, signals, report)?;
    Ok(())
}

/// Ok exactly where every condition of the report holds, and else the first that fails. It looks at what the report
/// tells, and searches for nothing.
pub fn check_report(
    alloc: Global,
    circuit: &Circuit,
    signals: &Signals,
    report: &Report,
) -> Result<(), CheckFault>
    requires signals { signals.now.circuit ≡ circuit.now }
    requires form { HasForm report.now }
    ensures ok { OkExactly CheckFault.OutOfMemory result (IsUpheld circuit.now signals.now.lits report.now) }
    ensures fault { (part : Part) (at : ℕ) (kind : CheckKind) → ErrExactly CheckFault.OutOfMemory result (CheckFault.At part at kind)
        (IsFirstFault circuit.now signals.now.lits report.now part at kind) }
    ensures supported { OnOk result (IsSupported circuit.now signals.now.lits report.now) }
{
    circuit.is_well_formed();
    signals.is_well_formed();
    check_findings(alloc, circuit, signals, report)?;
    check_queries(alloc, circuit, signals, report)
}
