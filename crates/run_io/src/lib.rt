//! Files that come in and bytes that go out, with counts of what failed.
#![tactic(auto)]

mod desk;
mod file_text;
mod host_desk;
mod host_sink;
mod memory_desk;
mod memory_sink;
mod name;
mod numbered;
mod read;
mod sink;
mod write;

pub use desk::{Desk, Failed};
pub use file_text::FileText;
pub use host_desk::HostDesk;
pub use host_sink::HostSink;
pub use memory_desk::MemoryDesk;
pub use memory_sink::MemorySink;
pub use read::{ReadFault, read_file};
pub use sink::Sink;
pub use write::{WriteFault, write_all};
