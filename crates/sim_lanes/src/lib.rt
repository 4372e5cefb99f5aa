//! Batches of random walks, 64 lanes to a word.
#![tactic(auto)]

mod batch;
mod best;
mod goals;
mod lanes;
mod masks;
mod over;
mod start;
mod step;
mod values;
mod walked;

pub use batch::lane_batch;
