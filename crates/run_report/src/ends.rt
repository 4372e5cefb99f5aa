//! How the jobs of a run end.

use ketch_base::Sequence;
use report_text::{Block, Blocks, Inv, SeedLine};

/// The queries that a search leaves: one that has no model of each step that was searched whole, where the options ask for
/// them, and the one at which it stopped, if that was spent.
#[derive(Debug, Drop)]
pub struct SearchBlocks {
    pub refuted: Blocks,
    pub spent: Option<Block>,
}

/// How a batch ends: with a seed, where some lane visits a step. From there the hop goes to the
/// step that the options ask for, or to a query that is spent.
#[derive(Debug, Drop)]
pub struct BatchEnd {
    pub seed: Option<SeedLine>,
    pub hop: SearchBlocks,
}

pub type BatchEnds = Sequence<BatchEnd>;

/// How the prover ends: a run may have none, every goal may be settled before it asks, and the
/// question whether a clause is kept may be spent. Else it has the greatest invariant, and the
/// goals of which it isn't known whether that excludes them.
#[derive(Debug, Drop)]
pub enum ProverEnd {
    NotRun,
    AllSettled,
    Spent(Block),
    Whole { inv: Inv, spents: Blocks },
}

/// The sweep; the batches from reset, in their order; the prover.
#[derive(Debug, Drop)]
pub struct Ends {
    pub sweep: SearchBlocks,
    pub batches: BatchEnds,
    pub prover: ProverEnd,
}
