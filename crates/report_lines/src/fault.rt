//! What is wrong with a text that is no report's.

use ketch_base::OutOfMemory as NoMemory;
use std::alloc::AllocFailed;
use thiserror::Error;

#[derive(Clone, Copy, Debug, PartialEq, Eq)]
pub enum ReportKind {
    /// The line isn't what its place needs: another form, a number that its type can't hold, a goal or a seed out of
    /// turn, goals that don't rise, a line behind the last one, or a line without its newline.
    Form,
    /// The text ends before its last line.
    Truncated,
}

#[derive(Clone, Copy, Debug, PartialEq, Eq, Error)]
pub enum ReportFault {
    /// The first fault, at its line, or at the line that is missing; lines count from 1.
    #[error("line {line}: {kind:?}")]
    At { line: u32, kind: ReportKind },
    #[error("out of memory")]
    OutOfMemory,
}

impl From<NoMemory> for ReportFault {
    ghost use Rattle.std.specs.Prelude.{◌≡◌};
    ghost use Rattle.report_lines.specs.declared.fault.ReportFault.TheVariants.{OutOfMemory};

    ghost from_gives = { λ _ e. e ≡ OutOfMemory };

    fn from(_error: NoMemory) -> ReportFault {
        ReportFault::OutOfMemory
    }
}

impl<T: Drop> From<AllocFailed<T>> for ReportFault {
    ghost use Rattle.std.specs.Prelude.{◌≡◌};
    ghost use Rattle.report_lines.specs.declared.fault.ReportFault.TheVariants.{OutOfMemory};

    ghost from_gives = { λ _ e. e ≡ OutOfMemory };

    fn from(_error: AllocFailed<T>) -> ReportFault {
        ReportFault::OutOfMemory
    }
}
