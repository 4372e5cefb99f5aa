//! Why a file spells no circuit, or a circuit has no file.

use aig_ascii::{Fault, FormatKind, SharedKind};
use ketch_base::OutOfMemory as NoMemory;
use std::alloc::AllocError;
use thiserror::Error;

#[derive(Clone, Copy, Debug, PartialEq, Eq)]
pub enum AigKind {
    /// The magic word isn't there, or M isn't I + L + A.
    Header,
    /// A field is no number, or is missing on its line, or is one too many.
    Number,
    /// A literal above 2M + 1.
    Range,
    /// A reset that isn't 0, 1 or the latch's own literal.
    Reset,
    /// A line after the gates that is no symbol and begins no comment, or a symbol of an item that doesn't
    /// exist, or that has a symbol already.
    Symbol,
    /// The file ends where a field, a line or a byte of a delta is missing.
    Truncated,
    /// Justice or fairness properties.
    Liveness,
    /// A number of the header above 3,999,999.
    Limit,
    /// A delta of more than five bytes, or one that is larger than what it is taken from, or the first one of a
    /// gate where it is 0.
    Delta,
}

impl FormatKind for AigKind {
    ghost use Rattle.aig_binary.specs.Kinds.{aig_kind};

    ghost kind = { aig_kind };

    fn of(shared: SharedKind) -> AigKind {
        match shared {
            SharedKind::Header => AigKind::Header,
            SharedKind::Number => AigKind::Number,
            SharedKind::Range => AigKind::Range,
            SharedKind::Reset => AigKind::Reset,
            SharedKind::Symbol => AigKind::Symbol,
            SharedKind::Truncated => AigKind::Truncated,
            SharedKind::Liveness => AigKind::Liveness,
            SharedKind::Limit => AigKind::Limit,
        }
    }
}

pub type AigFault = Fault<AigKind>;

/// Why a circuit can't be written.
#[derive(Clone, Copy, Debug, PartialEq, Eq, Error)]
pub enum WriteAigFault {
    /// Inputs, latches and gates don't have the even literals from 2 on, one after another: the first literal
    /// that is out of place. Or it is 0, and M alone isn't I + L + A.
    #[error("literal {lit} is out of place")]
    NotBinary { lit: u32 },
    #[error("out of memory")]
    OutOfMemory,
}

impl From<NoMemory> for WriteAigFault {
    ghost use Rattle.std.specs.Prelude.{◌≡◌};
    ghost use Rattle.aig_binary.specs.declared.fault.WriteAigFault.TheVariants.{OutOfMemory};

    ghost from_gives = { λ _ e. e ≡ OutOfMemory };

    fn from(_error: NoMemory) -> WriteAigFault {
        WriteAigFault::OutOfMemory
    }
}

impl From<AllocError> for WriteAigFault {
    ghost use Rattle.std.specs.Prelude.{◌≡◌};
    ghost use Rattle.aig_binary.specs.declared.fault.WriteAigFault.TheVariants.{OutOfMemory};

    ghost from_gives = { λ _ e. e ≡ OutOfMemory };

    fn from(_error: AllocError) -> WriteAigFault {
        WriteAigFault::OutOfMemory
    }
}
