//! Reading the sections of a report's text: what they tell, or the first line that fits no section there.
#![tactic(auto)]

mod bits;
mod clauses;
mod head;
mod history;
mod items;
mod proof;
mod seeds;

pub use bits::{bits_in, read_bits};
pub use clauses::{read_clauses, read_invs};
pub use head::{Counts, Size, read_end, read_options, read_size, read_title};
pub use history::{behind_front, read_history};
pub use items::{ItemReader, read_items, read_section};
pub use proof::read_proof;
pub use seeds::{bound, read_seeds};
