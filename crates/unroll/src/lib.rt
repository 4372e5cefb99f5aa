//! A circuit unrolled over its steps, as a formula: its runs, and what a search or a proof asks of them.
#![tactic(auto)]

mod cert;
mod clauses;
mod entry;
mod fault;
mod frame;
mod framed;
mod goal;
mod laws;
mod lits;
mod search;
mod start;
mod step;
mod trace;
mod undefined;
mod unrolled;

pub use cert::{excludes_formula, kept_formula};
pub use fault::FrameFault;
pub use framed::FramedFormula;
pub use laws::{
    excluded_is_refuted, few_clauses, frames_are_runs, kept_is_refuted, searched_are_new,
};
pub use search::search_formula;
pub use start::Start;
pub use trace::trace_of_run;
pub use unrolled::{Unrolled, frames};
