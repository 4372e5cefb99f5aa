//! Why a text spells no circuit.

use ketch_base::OutOfMemory as NoMemory;
use std::alloc::AllocError;
use std::fmt::Debug;
use thiserror::Error;

/// What can be wrong with the parts that the ASCII and the binary format share.
#[derive(Clone, Copy, Debug, PartialEq, Eq)]
pub enum SharedKind {
    /// The magic word isn't there, or M doesn't fit the other numbers.
    Header,
    /// A field is no number, or is missing on its line, or is one too many.
    Number,
    /// A literal above 2M + 1.
    Range,
    /// A reset that isn't 0, 1 or the latch's own literal.
    Reset,
    /// A line after the gates that is no symbol and begins no comment, or a symbol of an item that doesn't
    /// exist, or that has a symbol already.
    Symbol,
    /// The file ends where a field or a line is missing.
    Truncated,
    /// Justice or fairness properties.
    Liveness,
    /// A number of the header above 3,999,999.
    Limit,
}

/// The kinds of faults of a format, among which are those of the shared parts.
pub trait FormatKind: Copy + Debug {
    ghost use Rattle.std.specs.Prelude.{◌≡◌};
    ghost use Rattle.aig_ascii.specs.declared.fault.SharedKind.{SharedKind};

    ghost kind: { SharedKind → Self };

    fn of(shared: SharedKind) -> Self
        ensures { result ≡ kind shared };
}

#[derive(Clone, Copy, Debug, PartialEq, Eq)]
pub enum AagKind {
    /// The magic word isn't there, or M is too small.
    Header,
    /// A field is no number, or is missing on its line, or is one too many.
    Number,
    /// A literal above 2M + 1.
    Range,
    /// A defining literal that is odd or below 2, or whose variable an earlier line defines.
    Defined,
    /// A used variable that isn't 0 and that no line defines.
    Undefined,
    /// A gate that depends on a gate that depends on itself.
    Cycle,
    /// A reset that isn't 0, 1 or the latch's own literal.
    Reset,
    /// A line after the gates that is no symbol and begins no comment, or a symbol of an item that doesn't
    /// exist, or that has a symbol already.
    Symbol,
    /// The file ends where a field or a line is missing.
    Truncated,
    /// Justice or fairness properties.
    Liveness,
    /// A number of the header above 3,999,999.
    Limit,
}

impl FormatKind for AagKind {
    ghost use Rattle.aig_ascii.specs.Kinds.{aag_kind};

    ghost kind = { aag_kind };

    fn of(shared: SharedKind) -> AagKind {
        match shared {
            SharedKind::Header => AagKind::Header,
            SharedKind::Number => AagKind::Number,
            SharedKind::Range => AagKind::Range,
            SharedKind::Reset => AagKind::Reset,
            SharedKind::Symbol => AagKind::Symbol,
            SharedKind::Truncated => AagKind::Truncated,
            SharedKind::Liveness => AagKind::Liveness,
            SharedKind::Limit => AagKind::Limit,
        }
    }
}

/// A fault of a format with these kinds.
#[derive(Clone, Copy, Debug, PartialEq, Eq, Error)]
pub enum Fault<K: Debug> {
    /// The first fault; bytes count from 0.
    #[error("at {at}: {kind:?}")]
    At { at: u64, kind: K },
    #[error("out of memory")]
    OutOfMemory,
}

pub type AagFault = Fault<AagKind>;

impl<K: Debug> From<NoMemory> for Fault<K> {
    ghost use Rattle.std.specs.Prelude.{◌≡◌};
    ghost use Rattle.aig_ascii.specs.declared.fault.Fault.TheVariants.{OutOfMemory};

    ghost from_gives = { λ _ e. e ≡ OutOfMemory };

    fn from(_error: NoMemory) -> Fault<K> {
        Fault::OutOfMemory
    }
}

impl<K: Debug> From<AllocError> for Fault<K> {
    ghost use Rattle.std.specs.Prelude.{◌≡◌};
    ghost use Rattle.aig_ascii.specs.declared.fault.Fault.TheVariants.{OutOfMemory};

    ghost from_gives = { λ _ e. e ≡ OutOfMemory };

    fn from(_error: AllocError) -> Fault<K> {
        Fault::OutOfMemory
    }
}
