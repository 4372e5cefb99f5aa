//! Rows of formulas and proofs, as tests: their texts both ways, and what the checker answers to steps and whole proofs.
#![tactic(auto)]

#[cfg(test)]
mod check_rows;
#[cfg(test)]
mod clause_rows;
#[cfg(test)]
mod dimacs_rows;
#[cfg(test)]
mod lrat_rows;
#[cfg(test)]
mod tables;
