//! The lines and words of a text, and the numbers that words spell.
#![tactic(auto)]

mod bytes;
mod cursor;
mod fault;
mod lines;
mod numbers;
mod words;

pub use bytes::digits;
pub use cursor::{Cursor, LineEnd};
pub use fault::LineFault;
pub use lines::{Lines, lines_at_most_bytes};
pub use numbers::{decimal_number, integer, natural, push_integer, push_natural};
pub use words::{Separators, Words};
