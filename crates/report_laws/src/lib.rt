//! What is true of reports and of their checker together.
#![tactic(auto)]

mod laws;

pub use laws::{printed_report_is_accepted, true_report_is_upheld};
