//! Runs the commands over files, and writes the report of what a circuit can show.
#![tactic(auto)]

mod checking;
mod covering;
mod exporting;
mod output;
mod part;
mod replaying;
mod running;
mod subject;

pub use command_words::{CircuitKind, File, Measure, Misfit, Refusal, Status, Stop};
pub use job_moves::{Gate, OpenGate};
pub use report_text::Report;
pub use running::run;
