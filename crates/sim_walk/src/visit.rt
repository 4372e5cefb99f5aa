//! What a walk visits.

use ketch_base::Sequence;

/// The first step, and there the least lane, at which a walk shows a goal.
#[derive(Clone, Copy, Debug, PartialEq, Eq)]
pub struct Visit {
    pub goal: u32,
    pub lane: u32,
    pub step: u32,
}

pub type Visits = Sequence<Visit>;
