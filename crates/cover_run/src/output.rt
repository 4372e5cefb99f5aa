//! What a command writes.

/// The bytes, and whether they leave nothing open.
#[derive(Drop)]
pub(crate) struct Output {
    pub bytes: Vec<u8>,
    pub settled: bool,
}
