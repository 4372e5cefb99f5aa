//! Conflict analysis: a learned clause, with the hints by which a checker follows it.
#![tactic(auto)]

mod analysis;
mod analyzer;
mod antecedent;
mod conclusion;
mod explanation;
mod first_uip;
mod implication;
mod learned_clause;
mod marks;
mod minimize;
mod premises;
mod resolution;
mod root_places;
mod root_queue;
mod roots;

pub use analyzer::Analyzer;
pub use implication::Implication;
pub use learned_clause::LearnedClause;
pub use premises::Premises;
