//! Rows of the solver: formulas whose answers are known from elsewhere, and each answer judged by the checker or by truth.
#![tactic(auto)]

#[cfg(test)]
mod book_clauses;
#[cfg(test)]
mod book_rows;
#[cfg(test)]
mod book_steps;
#[cfg(test)]
mod families;
#[cfg(test)]
mod family_rows;
#[cfg(test)]
mod formulas;
#[cfg(test)]
mod judging;
#[cfg(test)]
mod learn_rows;
#[cfg(test)]
mod learn_steps;
#[cfg(test)]
mod queue_rows;
#[cfg(test)]
mod random;
#[cfg(test)]
mod random_rows;
#[cfg(test)]
mod rows;
#[cfg(test)]
mod trail_rows;
#[cfg(test)]
mod truth;
#[cfg(test)]
mod watch_rows;
