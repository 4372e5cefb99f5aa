//! What is wrong with a text that spells no witness.

use ketch_base::OutOfMemory as NoMemory;
use thiserror::Error;

#[derive(Clone, Copy, Debug, PartialEq, Eq)]
pub enum WitKind {
    /// The first line isn't `1`.
    Status,
    /// The second line isn't `b` and one to ten digits of a number below 2^32.
    Property,
    /// The line of the start or of a step hasn't one character for each latch or input, or has one that isn't
    /// `0`, `1` or `x`.
    Length,
    /// The line `.` comes before any step.
    NoRows,
    /// The text ends before the line `.`.
    Truncated,
}

#[derive(Clone, Copy, Debug, PartialEq, Eq, Error)]
pub enum WitFault {
    /// The first fault, at the first byte of its line, and `Truncated` at the text's end; bytes count from 0.
    #[error("at {at}: {kind:?}")]
    At { at: u64, kind: WitKind },
    #[error("out of memory")]
    OutOfMemory,
}

impl From<NoMemory> for WitFault {
    ghost use Rattle.std.specs.Prelude.{◌≡◌};
    ghost use Rattle.wit_text.specs.declared.fault.WitFault.TheVariants.{OutOfMemory};

    ghost from_gives = { λ _ e. e ≡ OutOfMemory };

    fn from(_error: NoMemory) -> WitFault {
        WitFault::OutOfMemory
    }
}
