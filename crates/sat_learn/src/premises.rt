//! What a learned clause may rest on.

use sat_trail::Trail;
use sat_watch::ClauseBook;

/// The clauses so far, under their ids in the proof, and the trail of the literals that are assigned.
#[derive(Debug, Drop)]
pub struct Premises {
    pub trail: Trail,
    pub book: ClauseBook,
    /// The ids in the proof of the book's clauses, by index.
    pub proof_ids: Vec<u64>,
}
