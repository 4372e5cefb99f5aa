//! The sweep: every goal that is reached within so many steps from reset; and the hop, the same from a state.
#![tactic(auto)]

mod blocked;
mod frames;
mod search;
mod steps;
mod swept;

pub use blocked::settled_goals;
pub use frames::{first_frame, next_frame};
pub use steps::{hop_from, sweep};
pub use swept::{FoundGoal, FoundGoals, StepQueries, StepQuery, Swept};
