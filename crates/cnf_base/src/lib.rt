//! Formulas in conjunctive normal form, and their DIMACS texts.
#![tactic(auto)]

mod clause;
mod clause_status;
mod draft;
mod fault;
mod formula;
mod header;
mod held;
mod law;
mod lit;
mod reading;
mod writing;

pub use clause::{Clause, Clauses};
pub use clause_status::ClauseStatus;
pub use fault::{DimacsFault, DimacsKind};
pub use formula::Formula;
pub use law::{each_status_is_of_its_literals, each_text_is_read_one_way};
pub use lit::CnfLit;
pub use reading::read_dimacs;
pub use writing::write_dimacs;
