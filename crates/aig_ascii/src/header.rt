//! The header: a magic word, and up to nine numbers.

ghost use Rattle.std.specs.Prelude.{◌≡◌, ◌≤◌, [], ◌∷◌, ◌++◌, take, drop, OnOk, IfOk};
ghost use Rattle.aig_model.specs.WellFormed.{limit};
ghost use Rattle.text_words.specs.Text.{fields, next_line, PassesFields};
ghost use Rattle.aig_ascii.specs.Fields.{wants_demands};
ghost use Rattle.aig_ascii.specs.Header.{header_wants, sizes_in, sizes_of, header_demands, magic_of, fits, AreFew, size_at};
ghost use Rattle.aig_ascii.specs.FirstFaults.{first_unmet, Says};

use crate::fault::{Fault, FormatKind, SharedKind};
use crate::fields::{end_line, no_liveness, optional_size, size};
use text_words::Cursor;

/// The formats of a circuit's file.
#[derive(Clone, Copy, Debug, PartialEq, Eq)]
pub enum Format {
    Ascii,
    Binary,
}

/// The numbers of a header: in the format's words M, I, L, O, A, B and C.
#[derive(Clone, Copy, Debug, PartialEq, Eq)]
pub struct Sizes {
    pub top: u32,
    pub inputs: u32,
    pub latches: u32,
    pub outputs: u32,
    pub gates: u32,
    pub bads: u32,
    pub constraints: u32,
}

/// The five numbers that must be there; the others are 0 so far.
fn read_first_sizes<K: FormatKind>(cursor: &mut Cursor<'_>) -> Result<Sizes, Fault<K>>
    ensures demands { Says result (first_unmet (wants_demands K.kind cursor.old (fields cursor.old) (take 5 (header_wants K.kind)))) }
    ensures sizes { IfOk result (λ s. s ≡ record (sizes_in (fields cursor.old)) { bads = 0; constraints = 0 }) }
    ensures few { IfOk result AreFew }
    ensures passes { OnOk result (PassesFields 5 cursor.old cursor.new) }
{
    let top = size(cursor)?;
    let inputs = size(cursor)?;
    let latches = size(cursor)?;
    let outputs = size(cursor)?;
    let gates = size(cursor)?;
    Ok(Sizes {
        top,
        inputs,
        latches,
        outputs,
        gates,
        bads: 0,
        constraints: 0,
    })
}

/// The numbers of bad literals and constraints, and none of liveness properties. Each may be missing.
fn read_last_sizes<K: FormatKind>(cursor: &mut Cursor<'_>) -> Result<(u32, u32), Fault<K>>
    ensures demands { Says result (first_unmet (wants_demands K.kind cursor.old (fields cursor.old) (drop 5 (header_wants K.kind)))) }
    ensures bads { IfOk result (λ s. s.0 ≡ size_at (fields cursor.old) 0) }
    ensures constraints { IfOk result (λ s. s.1 ≡ size_at (fields cursor.old) 1) }
    ensures few { IfOk result (λ s. (s.0 ≤ limit) × (s.1 ≤ limit)) }
    ensures passes { OnOk result (PassesFields 4 cursor.old cursor.new) }
{
    let bads = optional_size(cursor)?;
    let constraints = optional_size(cursor)?;
    no_liveness(cursor)?;
    no_liveness(cursor)?;
    Ok((bads, constraints))
}

/// The numbers of the header, from the first one on. What follows them on the line isn't judged.
pub fn read_sizes<K: FormatKind>(cursor: &mut Cursor<'_>) -> Result<Sizes, Fault<K>>
    ensures demands { Says result (first_unmet (wants_demands K.kind cursor.old (fields cursor.old) (header_wants K.kind))) }
    ensures sizes { IfOk result (λ s. s ≡ sizes_in (fields cursor.old)) }
    ensures few { IfOk result AreFew }
    ensures passes { OnOk result (PassesFields 9 cursor.old cursor.new) }
{
    let first = read_first_sizes(cursor)?;
    let (bads, constraints) = read_last_sizes(cursor)?;
    Ok(Sizes {
        top: first.top,
        inputs: first.inputs,
        latches: first.latches,
        outputs: first.outputs,
        gates: first.gates,
        bads,
        constraints,
    })
}

/// The magic word, and the space behind it.
fn magic_word(format: Format) -> &'static [u8]
    ensures { result.now ≡ magic_of format ++ 32 ∷ [] }
{
    match format {
        Format::Ascii => b"aag ",
        Format::Binary => b"aig ",
    }
}

/// Whether the greatest variable fits what is defined.
fn fits(format: Format, sizes: Sizes) -> bool
    requires { AreFew sizes }
    ensures { result ≡ fits format sizes }
{
    let defined = sizes.inputs + sizes.latches + sizes.gates;
    match format {
        Format::Ascii => defined <= sizes.top,
        Format::Binary => defined == sizes.top,
    }
}

/// The header of a file, at which the text begins.
pub fn read_header<K: FormatKind>(
    cursor: &mut Cursor<'_>,
    format: Format,
) -> Result<Sizes, Fault<K>>
    ensures demands { Says result (first_unmet (header_demands K.kind format cursor.old)) }
    ensures sizes { IfOk result (λ s. s ≡ sizes_of cursor.old) }
    ensures few { IfOk result AreFew }
    ensures next { OnOk result (cursor.new ≡ next_line cursor.old) }
{
    let at = cursor.at();
    if !cursor.magic(magic_word(format)) {
        return Err(Fault::At {
            at,
            kind: K::of(SharedKind::Header),
        });
    }
    let at = cursor.at();
    let sizes = read_sizes(cursor)?;
    if !fits(format, sizes) {
        return Err(Fault::At {
            at,
            kind: K::of(SharedKind::Header),
        });
    }
    end_line(cursor)?;
    Ok(sizes)
}
