//! Batches of random walks, as tests: the words that they draw, what they visit, and their seeds.
#![tactic(auto)]

#[cfg(test)]
mod batch_rows;
