//! What the words on the command line ask for, and what the user sees of how a run ends.
#![tactic(auto)]

mod about;
mod command;
mod line;
mod settings;
mod stop;

pub use about::{help_text, version_text};
pub use command::{Command, Cover, Lrat, Replay, Subject, command_of};
pub use line::{Line, line_of};
pub use stop::{
    CircuitKind, File, Measure, Misfit, Refusal, Status, Stop, limit_of, settled_status, status_of,
};
