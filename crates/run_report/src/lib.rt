//! When a report is true of a circuit, its signals and the options, and the report of a run.
#![tactic(auto)]

mod batches;
mod blocks;
mod bounds;
mod composing;
mod ends;
mod findings;
mod hops;
mod laws;
mod literals;
mod open_goals;
mod posts;
mod proving;
mod queries;
mod run;
mod searches;

pub use composing::compose;
pub use ends::{BatchEnd, BatchEnds, Ends, ProverEnd, SearchBlocks};
pub use laws::true_reports_settle;
pub use posts::{Basis, Finding, Findings, Post, Posts, post_all};
pub use run::run_engines;
