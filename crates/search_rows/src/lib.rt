//! Rows of formulas of circuits, of searches and of sweeps, as tests.
#![tactic(auto)]

#[cfg(test)]
mod circuits;
#[cfg(test)]
mod formula_rows;
#[cfg(test)]
mod from_state_rows;
#[cfg(test)]
mod hop_rows;
#[cfg(test)]
mod sweep_rows;
