//! Entries of the history.

ghost use Rattle.std.specs.Prelude.{◌≡◌, ◌↔◌, IsTrue};
ghost use Rattle.board_core.specs.History.{IsInRange, kind_of};

use aig_model::Kind;
use ketch_base::Sequence;
use sim_walk::Options;

/// What settled a goal.
#[derive(Clone, Copy, Debug, PartialEq, Eq)]
pub enum Source {
    /// The walk from reset with all inputs and free latches 0.
    Zero,
    /// A batch of random walks from reset.
    Walk(u32),
    /// The search from reset, step by step.
    Sweep,
    /// The search from the seed of a batch.
    Hop(u32),
    /// A later round, from a seed of the pool.
    Again(u32),
    /// Clauses that hold at reset, survive every step and exclude the goal.
    Proved,
}

impl Source {
    /// The kind of goal that it settles.
    pub fn kind(self) -> Kind
        ensures { result ≡ kind_of self }
    {
        match self {
            Source::Zero | Source::Walk(_) | Source::Sweep | Source::Hop(_) | Source::Again(_) =>
                Kind::Reached,
            Source::Proved => Kind::Unreachable,
        }
    }

    /// Whether the options have its batch or round.
    pub fn is_in_range(self, options: &Options) -> bool
        ensures { IsTrue result ↔ IsInRange options.now self }
    {
        match self {
            Source::Zero | Source::Sweep | Source::Proved => true,
            Source::Walk(batch) | Source::Hop(batch) => batch < options.batches,
            Source::Again(round) => {
                u64::from(round) < u64::from(options.batches) * u64::from(options.rounds)
            }
        }
    }
}

/// One entry of the history: a post for a goal.
#[derive(Clone, Copy, Debug, PartialEq, Eq)]
pub struct Entry {
    pub number: u64,
    pub caller: u32,
    pub goal: u32,
    pub kind: Kind,
    pub source: Source,
    /// How much of the history the caller had seen.
    pub low: u64,
}

pub type Entries = Sequence<Entry>;
