//! A solver that is asked many times of a formula that grows: under assumptions, and with its lemmas kept.
#![tactic(auto)]

mod ask;
mod assumptions;
mod decision;
mod entry;
mod failed;
mod give;
mod learn;
mod outcome;
mod search;
mod solver;
mod step;

pub use entry::{Entries, Entry};
pub use outcome::Outcome;
pub use solver::Incremental;
