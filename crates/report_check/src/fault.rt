//! What is wrong with a report.

use ketch_base::OutOfMemory;
use thiserror::Error;

/// The parts of a report, in the order in which they are checked.
#[derive(Clone, Copy, Debug, PartialEq, Eq)]
pub enum Part {
    /// The lines of the sizes and of the options.
    Size,
    History,
    Seed,
    Inv,
    Goal,
    Spent,
    Refute,
    /// The line of the counts.
    End,
}

/// The conditions of a report, in the order in which those of one place are tried.
#[derive(Clone, Copy, Debug, PartialEq, Eq)]
pub enum CheckKind {
    /// The sizes aren't those of the circuit and the signals.
    Differs,
    /// An option is out of its range, or the frames or a walk take too many values.
    Options,
    /// An entry's number isn't its place.
    Number,
    /// An entry's caller is 8 or more.
    Caller,
    /// An entry's goal is out of range.
    Goal,
    /// An entry's caller had seen more entries than there were.
    Low,
    /// An entry's source isn't one that the options have, or it settles goals of the other kind.
    Source,
    /// An entry's caller posted for its goal before.
    Twice,
    /// The first entry of an entry's goal is of the other kind.
    Kind,
    /// A clause isn't one over the latches, or a reset state falsifies it.
    Start,
    /// The proof that a clause is kept isn't accepted.
    Kept,
    /// The seeds aren't as many as the batches, or the blocks as many as the goals.
    Count,
    /// The verdict or its number isn't that of the history.
    Verdict,
    /// The rows don't lead from reset to the state, or to the goal.
    Trace,
    /// There is no such block of clauses.
    Inv,
    /// The proof that the clauses exclude the goal isn't accepted.
    Excludes,
    /// A bound isn't what the options, the seeds and the spent queries leave.
    Bound,
    /// The query isn't one that may stand there.
    Query,
    /// The query's proof isn't accepted.
    Proof,
    /// A step that was searched has no proof.
    Missing,
    /// The counts aren't those of the goals.
    Counts,
}

/// Why a report is refused.
#[derive(Clone, Copy, Debug, PartialEq, Eq, Error)]
pub enum CheckFault {
    /// The first condition that fails. Places of a part count from 0: the entry, the batch, the block, the goal, the
    /// query, and for a missing query the number of queries.
    #[error("{part:?} {at}: {kind:?}")]
    At {
        part: Part,
        at: u32,
        kind: CheckKind,
    },
    #[error("out of memory")]
    OutOfMemory,
}

impl From<OutOfMemory> for CheckFault {
    ghost use Rattle.std.specs.Prelude.{◌≡◌};
    ghost use Rattle.report_check.specs.declared.fault.CheckFault.TheVariants.{OutOfMemory};

    ghost from_gives = { λ _ e. e ≡ OutOfMemory };

    fn from(_error: OutOfMemory) -> CheckFault {
        CheckFault::OutOfMemory
    }
}
