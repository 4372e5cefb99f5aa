//! Worked rows, as tests: whole runs over devices in memory, as a user would see them.
#![tactic(auto)]

mod setting;

pub use setting::{Outcome, Setting};

#[cfg(test)]
mod binary_rows;
#[cfg(test)]
mod devices;
#[cfg(test)]
mod goals_rows;
#[cfg(test)]
mod lrat_rows;
#[cfg(test)]
mod proved_rows;
#[cfg(test)]
mod refute_rows;
#[cfg(test)]
mod replay_rows;
#[cfg(test)]
mod rows;
#[cfg(test)]
mod spent_rows;
#[cfg(test)]
mod sweep_rows;
#[cfg(test)]
mod verdict_rows;
#[cfg(test)]
mod walk_rows;
#[cfg(test)]
mod words;
