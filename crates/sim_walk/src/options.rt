//! The options of `cover`.

/// What `cover` is asked to do; docs/GUIDE.md says what each option bounds.
#[derive(Clone, Copy, Debug, PartialEq, Eq)]
pub struct Options {
    pub depth: u32,
    pub batches: u32,
    pub length: u32,
    pub stall: u32,
    pub hop: u32,
    pub seed: u64,
    pub lemmas: u64,
    pub strength: u32,
    pub rounds: u32,
    pub proofs: bool,
}
