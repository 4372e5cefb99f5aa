//! What happens on a board, one atomic step at a time.

ghost use Rattle.std.specs.Prelude.{◌≡◌};
ghost use Rattle.board_core.specs.Faults.{first_verdict};

use crate::entry::Source;
use aig_model::Kind;
use ketch_base::Sequence;

/// What a look tells of a goal.
#[derive(Clone, Copy, Debug, PartialEq, Eq)]
pub enum Verdict {
    Pending,
    Settled(Kind),
}

/// One verdict a goal.
pub type Verdicts = Sequence<Verdict>;

impl Verdict {
    /// The verdict after an entry of this kind.
    pub(crate) fn or(self, kind: Kind) -> Verdict
        ensures { result ≡ first_verdict self kind }
    {
        match self {
            Verdict::Pending => Verdict::Settled(kind),
            Verdict::Settled(first) => Verdict::Settled(first),
        }
    }
}

/// One step of a caller.
#[derive(Clone, Copy, Debug, PartialEq, Eq)]
pub enum Event {
    /// An entry for the goal joins the history.
    Number {
        caller: u32,
        goal: u32,
        kind: Kind,
        source: Source,
    },
    /// The goal of the caller's last entry is marked as settled, unless it is already.
    Mark {
        caller: u32,
    },
    Look {
        caller: u32,
        goal: u32,
    },
    /// Caller 0 makes a new caller.
    Split {
        caller: u32,
    },
    /// A caller ends, and hands what it has to another.
    Join {
        from: u32,
        into: u32,
    },
}

/// What a step answers: the entry's number, the goal's verdict, the new caller.
#[derive(Clone, Copy, Debug, PartialEq, Eq)]
pub enum Reply {
    Numbered(u64),
    Marked,
    Seen(Verdict),
    Split(u32),
    Joined,
}
