//! Rows of candidates, invariants and excluded goals, as tests.
#![tactic(auto)]

#[cfg(test)]
mod all_states;
#[cfg(test)]
mod all_steps;
#[cfg(test)]
mod candidate_rows;
#[cfg(test)]
mod circuits;
#[cfg(test)]
mod evidence_rows;
#[cfg(test)]
mod first_steps;
#[cfg(test)]
mod prover_rows;
#[cfg(test)]
mod state_rows;
