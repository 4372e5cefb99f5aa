//! What is wrong with a text that spells no formula.

ghost use Rattle.std.specs.Prelude.{◌≡◌};
ghost use Rattle.cnf_base.specs.Reading.{on_line};

use ketch_base::OutOfMemory;
use text_words::LineFault;
use thiserror::Error;

#[derive(Clone, Copy, Debug, PartialEq, Eq)]
pub enum DimacsKind {
    /// The first line that isn't blank or a comment is no `p cnf V C`.
    Header,
    /// A word is no number, or its size is above V.
    Literal,
    /// There are more clauses than C, or fewer.
    Count,
    /// The text ends within a clause.
    Truncated,
    /// V is above 4,000,000, or C above 20,000,000.
    Limit,
}

#[derive(Clone, Copy, Debug, PartialEq, Eq, Error)]
pub enum DimacsFault {
    /// The first fault, at the line where it is seen; lines count from 1.
    #[error("line {line}: {kind:?}")]
    At { line: u32, kind: DimacsKind },
    #[error("out of memory")]
    OutOfMemory,
}

impl From<OutOfMemory> for DimacsFault {
    ghost use Rattle.std.specs.Prelude.{◌≡◌};
    ghost use Rattle.cnf_base.specs.declared.fault.DimacsFault.TheVariants.{OutOfMemory};

    ghost from_gives = { λ _ e. e ≡ OutOfMemory };

    fn from(_error: OutOfMemory) -> DimacsFault {
        DimacsFault::OutOfMemory
    }
}

/// The fault of a line in the text that it stands in.
pub fn on_line(fault: LineFault<DimacsKind>, line: u32) -> DimacsFault
    ensures { result ≡ on_line line fault }
{
    match fault {
        LineFault::Kind(kind) => DimacsFault::At { line, kind },
        LineFault::OutOfMemory => DimacsFault::OutOfMemory,
    }
}
