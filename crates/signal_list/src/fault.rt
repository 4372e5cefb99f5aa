//! What is wrong with a text that spells no signals.

ghost use Rattle.std.specs.Prelude.{◌≡◌};
ghost use Rattle.signal_list.specs.Reading.{on_line};

use ketch_base::OutOfMemory;
use text_words::LineFault;
use thiserror::Error;

/// On one line the kinds are tried in this order.
#[derive(Clone, Copy, Debug, PartialEq, Eq)]
pub enum SigKind {
    /// The line has none of the six forms.
    Form,
    /// A position isn't below the number of items in its section, or a literal is above 2M + 1.
    Range,
    /// No place has the name.
    NoName,
    /// Two or more places have the name.
    TwoNames,
    /// An earlier signal has the same literal.
    Repeated,
    /// The signal is the eleventh.
    TooMany,
    /// No line is a signal.
    Empty,
}

#[derive(Clone, Copy, Debug, PartialEq, Eq, Error)]
pub enum SigFault {
    /// The first fault, at its line; lines count from 1, and `Empty` is at 0.
    #[error("line {line}: {kind:?}")]
    At { line: u32, kind: SigKind },
    #[error("out of memory")]
    OutOfMemory,
}

impl From<OutOfMemory> for SigFault {
    ghost use Rattle.std.specs.Prelude.{◌≡◌};
    ghost use Rattle.signal_list.specs.declared.fault.SigFault.TheVariants.{OutOfMemory};

    ghost from_gives = { λ _ e. e ≡ OutOfMemory };

    fn from(_error: OutOfMemory) -> SigFault {
        SigFault::OutOfMemory
    }
}

/// The fault of a line, at its place.
pub fn on_line(fault: LineFault<SigKind>, line: u32) -> SigFault
    ensures { result ≡ on_line line fault }
{
    match fault {
        LineFault::Kind(kind) => SigFault::At { line, kind },
        LineFault::OutOfMemory => SigFault::OutOfMemory,
    }
}

impl From<SigKind> for LineFault<SigKind> {
    ghost use Rattle.std.specs.Prelude.{◌≡◌};
    ghost use Rattle.text_words.specs.declared.fault.LineFault.TheVariants.{Kind};

    ghost from_gives = { λ kind e. e ≡ Kind kind };

    fn from(kind: SigKind) -> LineFault<SigKind> {
        LineFault::Kind(kind)
    }
}
