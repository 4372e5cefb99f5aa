//! Evidence: why a goal is reached or unreachable, each part checked before the value exists.
#![tactic(auto)]

mod acceptance;
mod certificate;
mod evidence;
mod fault;
mod kept_set;
mod laws;
mod literal;
mod reset;

pub use certificate::Certificate;
pub use evidence::{Basis, Evidence};
pub use fault::{CertFault, KeptFault};
pub use kept_set::KeptSet;
pub use laws::{kept_sets_are_invariant, shown_is_not_barred};
pub use reset::{holds_at_reset, reset_state, satisfies};
