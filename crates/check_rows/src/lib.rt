//! What the check of reports answers, as tests.
#![tactic(auto)]

#[cfg(test)]
mod check_rows;
#[cfg(test)]
mod reports;
