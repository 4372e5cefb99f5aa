//! The checker of reports: it looks at evidence and searches for none, and stands on no solver and no engine.
#![tactic(auto)]

mod bounds;
mod check;
mod clauses;
mod evidence;
mod fault;
mod firsts;
mod goals;
mod history;
mod invariants;
mod laws;
mod questions;
mod refutes;
mod seeds;
mod sizes;
mod spents;
mod walked;

pub use check::check_report;
pub use fault::{CheckFault, CheckKind, Part};
pub use laws::upheld_is_supported;
