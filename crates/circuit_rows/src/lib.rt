//! Rows of circuits, their texts and their signals, as tests: what no clause says, as that calls succeed where memory is ample.
#![tactic(auto)]

#[cfg(test)]
mod aag_faults;
#[cfg(test)]
mod aag_reading;
#[cfg(test)]
mod aag_writing;
#[cfg(test)]
mod aig_reading;
#[cfg(test)]
mod aig_writing;
#[cfg(test)]
mod build_rows;
#[cfg(test)]
mod evaluation_rows;
#[cfg(test)]
mod goal_rows;
#[cfg(test)]
mod list_rows;
#[cfg(test)]
mod number_rows;
#[cfg(test)]
mod order_rows;
#[cfg(test)]
mod signal_rows;
#[cfg(test)]
mod witness_rows;
