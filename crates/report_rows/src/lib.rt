//! Whole reports that are read and written, and a report of which one thing was changed, as tests.
#![tactic(auto)]

#[cfg(test)]
mod examples;
#[cfg(test)]
mod faults;
#[cfg(test)]
mod texts;
#[cfg(test)]
mod whole;
