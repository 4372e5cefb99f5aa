//! Bounded search: a goal that is not settled yet, at a step from reset or from a given state.
#![tactic(auto)]

mod hop;
mod laws;
mod search;

pub use hop::Hop;
pub use laws::{new_is_at, new_replays};
pub use search::{next_new, next_new_framed};
