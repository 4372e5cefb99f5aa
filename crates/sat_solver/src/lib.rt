//! The solver: an assignment that satisfies a formula, a proof that there is none, or a proof that its budget is spent.
#![tactic(auto)]

mod analysis;
mod answer;
mod backjump;
mod considered;
mod decision;
mod gathered;
mod input_clauses;
mod model;
mod phases;
mod ranks;
mod refutation;
mod restart;
mod root_lemmas;
mod search;
mod solver;
mod step;

pub use analysis::proof_id_of;
pub use answer::{Answer, Counted};
pub use backjump::{attach, bump};
pub use decision::next_variable;
pub use gathered::Gathered;
pub use input_clauses::add_clause;
pub use model::values;
pub use phases::Phases;
pub use ranks::Ranks;
pub use restart::{Restarts, count_levels};
pub use search::no_premises;
pub use solver::{solve, solve_counting};
