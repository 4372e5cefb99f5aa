//! The order in which variables are decided.
#![tactic(auto)]

mod links;
mod queue;

pub use queue::VarQueue;
