//! Rows of a board, as tests: its core step by step, histories and their faults, the desk of jobs, the pool of seeds and the board on threads.
#![tactic(auto)]

#[cfg(test)]
mod core_rows;
#[cfg(test)]
mod desk_rows;
#[cfg(test)]
mod history_rows;
#[cfg(test)]
mod pool_rows;
#[cfg(test)]
mod post_rows;
#[cfg(test)]
mod posting;
#[cfg(test)]
mod turn_rows;
