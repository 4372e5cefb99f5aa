//! The ASCII format of AIGER 1.9.
#![tactic(auto)]

mod draft;
mod fault;
mod fields;
mod header;
mod law;
mod reading;
mod sections;
mod symbols;
mod writing;

pub use fault::{AagFault, AagKind, Fault, FormatKind, SharedKind};
pub use fields::{end_line, literal, reset};
pub use gate_order::{OrderFault, order_gates};
pub use header::{Format, Sizes, read_header};
pub use law::{each_text_is_read_one_way, spelled_circuits_are_well_formed};
pub use reading::read_aag;
pub use symbols::read_symbols;
pub use writing::{
    push_reset, push_spaced, write_aag, write_header, write_lit, write_lits, write_symbols,
};
