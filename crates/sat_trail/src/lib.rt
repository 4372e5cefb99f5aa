//! The trail of a solver: the literals that are true, with their levels and reasons.
#![tactic(auto)]

mod cause;
mod clause_id;
mod reason;
mod trail;
mod truth;
mod values;

pub use clause_id::ClauseId;
pub use trail::Trail;
pub use truth::Value;
