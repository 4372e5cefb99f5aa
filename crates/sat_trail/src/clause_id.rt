//! Ids of clauses.

/// A clause: `Book` has its place in the book's list, and `Unit` is for unit clauses that the solver keeps itself.
#[derive(Clone, Copy, Debug, PartialEq, Eq)]
pub enum ClauseId {
    Book(u64),
    Unit(u64),
}
