//! Why a history is refused.

use ketch_base::OutOfMemory;
use thiserror::Error;

/// What is wrong with an entry.
#[derive(Clone, Copy, Debug, PartialEq, Eq, Error)]
pub enum HistoryKind {
    #[error("the number isn't the entry's place")]
    Number,
    #[error("there are eight callers at most")]
    Caller,
    #[error("there are fewer goals")]
    Goal,
    #[error("the caller had seen more entries than there were")]
    Low,
    #[error("there is no such batch or round, or its goals are of the other kind")]
    Source,
    #[error("the caller posted for this goal before")]
    Twice,
    #[error("the goal's first entry is of the other kind")]
    Kind,
}

/// Why a history is refused. Entries count from 0.
#[derive(Clone, Copy, Debug, PartialEq, Eq, Error)]
pub enum HistoryFault {
    #[error("entry {at}: {kind}")]
    At { at: u32, kind: HistoryKind },
    #[error("out of memory")]
    OutOfMemory,
}

impl From<OutOfMemory> for HistoryFault {
    ghost use Rattle.std.specs.Prelude.{◌≡◌};
    ghost use Rattle.board_core.specs.declared.fault.HistoryFault.TheVariants.{OutOfMemory};

    ghost from_gives = { λ _ e. e ≡ OutOfMemory };

    fn from(_error: OutOfMemory) -> HistoryFault {
        HistoryFault::OutOfMemory
    }
}
