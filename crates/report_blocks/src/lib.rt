//! Reading the blocks of goals and of queries in a report's text.
#![tactic(auto)]

mod goals;
mod queries;
mod witness;

pub use goals::read_goals;
pub use queries::{read_refutes, read_spents};
