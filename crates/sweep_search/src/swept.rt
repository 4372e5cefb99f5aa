//! What a sweep or a hop finds.

use aig_model::{Goals, Trace};
use ketch_base::Sequence;
use lrat_text::Proof;

/// A goal, the least step at which it is reached from where the search starts, and a trace of `step + 1` rows from there
/// that shows it.
#[derive(Debug, Drop)]
pub struct FoundGoal {
    pub goal: u32,
    pub step: u32,
    pub trace: Trace,
}

pub type FoundGoals = Sequence<FoundGoal>;

/// The query of one step, with the goals that it left out, and the proof with which the solver answered it: that it has no
/// model, or that it takes more lemmas than the budget has.
#[derive(Debug, Drop)]
pub struct StepQuery {
    pub step: u32,
    pub blocked: Goals,
    pub proof: Proof,
}

pub type StepQueries = Sequence<StepQuery>;

/// The goals that are new, in the order in which they were found. `upto` is the last step that was searched until
/// nothing was new there; None where there is none. `refuted` has the last query of each such step, which has no model,
/// where the caller asks for them. `spent` is the query at which the search stopped, if one ran out.
#[derive(Debug, Drop)]
pub struct Swept {
    pub found: FoundGoals,
    pub upto: Option<u32>,
    pub refuted: StepQueries,
    pub spent: Option<StepQuery>,
}
