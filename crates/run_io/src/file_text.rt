//! A file in memory.

/// The name of a file and its bytes.
#[derive(Debug, Drop)]
pub struct FileText {
    pub name: Vec<u8>,
    pub bytes: Vec<u8>,
}
