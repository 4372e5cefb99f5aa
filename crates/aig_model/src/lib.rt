//! Circuits of AIGER 1.9, their signals and traces, and the lists of truth values that they are spoken of with.
#![tactic(auto)]

mod bits;
mod build;
mod circuit;
mod definers;
mod fault;
mod goals;
mod latch_clause;
mod laws;
mod lit;
mod order;
mod parts;
mod range;
mod rows;
mod signals;
mod trace;
mod uses;

pub use bits::Bits;
pub use circuit::Circuit;
pub use fault::BuildFault;
pub use goals::Goals;
pub use latch_clause::{LatchClause, LatchClauses};
pub use laws::{
    at_after, at_step, barred_is_unreachable, definers_within_top, goal_below, least_dependence,
    one_assignment, one_goal, one_path, path_append, path_end, path_front, path_latches, path_push,
    run_append, run_end, run_front, run_push, shown_by_run, state_after_append,
};
pub use lit::Lit;
pub use parts::{
    AndGate, Gates, Kind, Latch, Latches, Lits, Name, Named, Names, Parts, Place, Reset,
};
pub use rows::Rows;
pub use signals::Signals;
pub use trace::Trace;
