//! What a report says, and its text.
#![tactic(auto)]

mod clause_text;
mod laws;
mod literals;
mod query_text;
mod report;
mod seed_text;
mod text;
mod text_writer;

pub use laws::one_report;
pub use literals::proof_literals_fit;
pub use report::{
    Block, BlockName, Blocks, GoalBlock, GoalBlocks, HopBound, HopBounds, Inv, Invs, Report,
    SeedLine, SeedLines,
};
pub use text::text_of;
