//! The lanes of a batch.

/// 64 lanes, of which bit j of each word belongs to lane j: where each is, and where it was a step before;
/// which of them live, the step at which each of the others died, and for each goal the lanes that visited it.
#[derive(Drop)]
pub struct LaneWords {
    pub state: Vec<u64>,
    pub before: Vec<u64>,
    pub live: u64,
    pub died: Vec<u32>,
    pub seen: Vec<u64>,
}
