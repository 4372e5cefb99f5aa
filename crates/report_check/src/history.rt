//! The history.

ghost use Rattle.std.specs.Prelude.{◌≡◌, ◌<◌, ◌^◌, length, MatchResult};
ghost use Rattle.report_check.specs.Conditions.{IsFaultOf, MeetsAll};
ghost use Rattle.report_check.specs.Order.{kind_of_fault};

use crate::fault::{CheckFault, CheckKind, Part};
use aig_model::{Circuit, Signals};
use board_core::{HistoryFault, HistoryKind, replay_history};
use report_text::Report;
use std::alloc::Global;

fn kind_of_fault(fault: HistoryKind) -> CheckKind
    ensures { result ≡ kind_of_fault fault }
{
    match fault {
        HistoryKind::Number => CheckKind::Number,
        HistoryKind::Caller => CheckKind::Caller,
        HistoryKind::Goal => CheckKind::Goal,
        HistoryKind::Low => CheckKind::Low,
        HistoryKind::Source => CheckKind::Source,
        HistoryKind::Twice => CheckKind::Twice,
        HistoryKind::Kind => CheckKind::Kind,
    }
}

pub(crate) fn check_history(
    alloc: Global,
    circuit: &Circuit,
    signals: &Signals,
    report: &Report,
) -> Result<(), CheckFault>
    requires { length report.now.history < 2 ^ 32 }
    ensures { MatchResult result (λ _. MeetsAll circuit.now signals.now.lits report.now Part.History) (IsFaultOf circuit.now signals.now.lits report.now Part.History) }
{
    match replay_history(alloc, &report.history, signals.goals(), &report.options) {
        Ok(_) => Ok(()),
        Err(HistoryFault::At { at, kind }) => Err(CheckFault::At {
            part: Part::History,
            at,
            kind: kind_of_fault(kind),
        }),
        Err(HistoryFault::OutOfMemory) => Err(CheckFault::OutOfMemory),
    }
}
