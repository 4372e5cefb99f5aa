//! The clauses that a solver has, and their propagation.
#![tactic(auto)]

mod append;
mod arena;
mod begin;
mod book;
mod choose;
mod examine;
mod links;
mod mark;
mod propagate;
mod scan;
mod seen;
mod visit;
mod watch_lists;

pub use book::ClauseBook;
pub use mark::Mark;
pub use scan::Scan;
pub use watch_lists::WatchLists;
