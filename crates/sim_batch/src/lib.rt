//! Batches: 64 random walks at once, what they visit, and the seed that they end with.
#![tactic(auto)]

mod batch;
mod copies;
mod lane;
mod lane_walk;
mod over;
mod rounds;
mod seed;
mod traces;
mod walked;
mod ways;
mod words;

pub use batch::{BatchEnd, walk_batch};
pub use lane::start_words;
pub use seed::{Seed, are_seeds};
pub use traces::{lane_seed, visit_trace};
pub use ways::seed_after;
pub use words::{batch_generator, draw, lane_bit, lane_row};
