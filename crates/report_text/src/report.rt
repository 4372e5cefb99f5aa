//! What a report says.

use aig_model::{Bits, Goals, LatchClauses, Rows, Trace};
use board_core::Entries;
use ketch_base::Sequence;
use lrat_text::{Proof, Proofs};
use sim_walk::Options;

/// How far the search from a batch's seed went: to a step, not even to step 0, or there was no seed.
#[derive(Clone, Copy, Debug, PartialEq, Eq)]
pub enum HopBound {
    To(u32),
    Nothing,
    NoSeed,
}

pub type HopBounds = Sequence<HopBound>;

/// What the report says of one goal. The bounds of an open one are those of the sweep, of the hop
/// from each batch's seed, and of the proofs; None says that nothing was done.
#[derive(Debug, Drop)]
pub enum GoalBlock {
    Reached {
        number: u64,
        witness: Trace,
    },
    /// The certificate, and the proof that its clauses exclude the goal.
    Unreachable {
        number: u64,
        inv: u32,
        proof: Proof,
    },
    Open {
        depth: Option<u32>,
        hops: HopBounds,
        strength: Option<u32>,
    },
}

pub type GoalBlocks = Sequence<GoalBlock>;

/// The seed of a batch: a start, the rows of inputs that lead from it, and the state that they end in.
#[derive(Debug, Drop)]
pub struct SeedLine {
    pub start: Bits,
    pub rows: Rows,
    pub state: Bits,
}

/// One for each batch; None where no lane of it visits a step.
pub type SeedLines = Sequence<Option<SeedLine>>;

/// Clauses that every reset state satisfies, and for each the proof that a step keeps it.
#[derive(Debug, Drop)]
pub struct Inv {
    pub clauses: LatchClauses,
    pub kept: Proofs,
}

pub type Invs = Sequence<Inv>;

/// The formula of a query: of the sweep or of a hop at a step, that clause `place` is kept, or that
/// the clauses exclude a goal.
#[derive(Debug, Drop)]
pub enum BlockName {
    Sweep { step: u32 },
    Hop { batch: u32, step: u32 },
    Kept { place: u32, clauses: LatchClauses },
    Excludes { goal: u32, clauses: LatchClauses },
}

/// A query with its proof. `blocked` are the goals that the search leaves out; the others have none.
#[derive(Debug, Drop)]
pub struct Block {
    pub name: BlockName,
    pub blocked: Goals,
    pub proof: Proof,
}

pub type Blocks = Sequence<Block>;

/// The queries of `spents` ran out of lemmas; those of `refutes` have no model. The last three
/// numbers count the goals.
#[derive(Debug, Drop)]
pub struct Report {
    pub inputs: u32,
    pub latches: u32,
    pub signals: u32,
    pub options: Options,
    pub history: Entries,
    pub seeds: SeedLines,
    pub invs: Invs,
    pub goals: GoalBlocks,
    pub spents: Blocks,
    pub refutes: Blocks,
    pub reached: u32,
    pub unreachable: u32,
    pub unsettled: u32,
}
