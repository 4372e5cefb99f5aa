//! Reading a report's text: the report, or the first line that no report has there.
#![tactic(auto)]

mod laws;
mod reading;
mod sections;

pub use laws::one_first_fault;
pub use reading::read_report;
pub use report_lines::{ReportFault, ReportKind};
