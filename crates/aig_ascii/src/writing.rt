//! Writing a circuit as a text.

ghost use Rattle.std.specs.Prelude.{IfOk};
ghost use Rattle.aig_ascii.specs.CircuitText.{IsTextOf};
ghost use Rattle.aig_ascii.specs.RoundTrip.{ReadsBack};

mod header;
mod lines;
mod names;
mod symbols;

use aig_model::Circuit;
pub use header::write_header;
use ketch_base::OutOfMemory;
use lines::write_sections;
pub use lines::{push_reset, push_spaced, write_lit, write_lits};
use std::alloc::Global;
pub use symbols::write_symbols;

/// The gates stand in the circuit's order, the names by their sections and positions.
pub fn write_aag(alloc: Global, circuit: &Circuit) -> Result<Vec<u8>, OutOfMemory>
    ensures text { IfOk result (λ text. IsTextOf circuit.now text.items) }
    ensures reads_back { IfOk result (λ text. ReadsBack circuit.now text.items) }
{
    let mut text = Vec::new(alloc);
    write_header(&mut text, b"aag", circuit)?;
    write_sections(&mut text, circuit)?;
    write_symbols(alloc, &mut text, circuit.names().as_slice())?;
    Ok(text)
}
