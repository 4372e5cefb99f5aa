//! What is wrong with a text that spells no proof.

ghost use Rattle.std.specs.Prelude.{◌≡◌};
ghost use Rattle.lrat_text.specs.Reading.{on_line};

use ketch_base::OutOfMemory;
use std::alloc::AllocFailed;
use text_words::LineFault;
use thiserror::Error;

#[derive(Clone, Copy, Debug, PartialEq, Eq)]
pub enum LratKind {
    /// A word is no number of its place: ids and hints have a size below 2^63, and literals fit an i32.
    Number,
    /// An id or a deleted id is 0 or negative, or a number follows the last 0.
    Form,
    /// A line ends before its last 0.
    Truncated,
}

#[derive(Clone, Copy, Debug, PartialEq, Eq, Error)]
pub enum LratFault {
    /// The first fault, at its line; lines count from 1.
    #[error("line {line}: {kind:?}")]
    At { line: u32, kind: LratKind },
    #[error("out of memory")]
    OutOfMemory,
}

impl<T: Drop> From<AllocFailed<T>> for LratFault {
    ghost use Rattle.std.specs.Prelude.{◌≡◌};
    ghost use Rattle.lrat_text.specs.declared.fault.LratFault.TheVariants.{OutOfMemory};

    ghost from_gives = { λ _ e. e ≡ OutOfMemory };

    fn from(_error: AllocFailed<T>) -> LratFault {
        LratFault::OutOfMemory
    }
}

impl From<OutOfMemory> for LratFault {
    ghost use Rattle.std.specs.Prelude.{◌≡◌};
    ghost use Rattle.lrat_text.specs.declared.fault.LratFault.TheVariants.{OutOfMemory};

    ghost from_gives = { λ _ e. e ≡ OutOfMemory };

    fn from(_error: OutOfMemory) -> LratFault {
        LratFault::OutOfMemory
    }
}

/// The fault of a line in the text that it stands in.
pub fn on_line(fault: LineFault<LratKind>, line: u32) -> LratFault
    ensures { result ≡ on_line line fault }
{
    match fault {
        LineFault::Kind(kind) => LratFault::At { line, kind },
        LineFault::OutOfMemory => LratFault::OutOfMemory,
    }
}

impl From<LratKind> for LineFault<LratKind> {
    ghost use Rattle.std.specs.Prelude.{◌≡◌};
    ghost use Rattle.text_words.specs.declared.fault.LineFault.TheVariants.{Kind};

    ghost from_gives = { λ kind e. e ≡ Kind kind };

    fn from(kind: LratKind) -> LineFault<LratKind> {
        LineFault::Kind(kind)
    }
}
