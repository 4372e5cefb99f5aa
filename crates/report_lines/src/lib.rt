//! The lines of a report's text, and the words of a line, one after another.
#![tactic(auto)]

mod fault;
mod lines;
mod numbers;
mod words;

pub use fault::{ReportFault, ReportKind};
pub use lines::TextLines;
pub use numbers::{signed, small};
pub use words::{LineWords, behind_name, count_in, last, read_count, take_number, take_small};
