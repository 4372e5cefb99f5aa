//! What a line spells.

ghost use Rattle.std.specs.Prelude.{◌≡◌, ◌↔◌, IsTrue, IfOk, Some, codes};
ghost use Rattle.wit_text.specs.Reading.{property_of, small_number, value_of, bits_of};

use aig_model::Bits;
use ketch_base::OutOfMemory;
use std::alloc::Global;
use text_words::natural;

/// Whether the line is the status `1`.
pub fn is_status(line: &[u8]) -> bool
    ensures { IsTrue result ↔ (line.now ≡ codes "1") }
{
    matches!(line, [b'1'])
}

/// Whether the line is the `.` that ends a witness.
pub fn is_end(line: &[u8]) -> bool
    ensures { IsTrue result ↔ (line.now ≡ codes ".") }
{
    matches!(line, [b'.'])
}

/// The property that the line names.
pub fn property(line: &[u8]) -> Option<u32>
    ensures { result ≡ property_of line.now }
{
    match line {
        [b'b', digits @ ..] if digits.len() <= 10 => small(natural(digits)?),
        _ => None,
    }
}

fn small(n: u64) -> Option<u32>
    ensures { result ≡ small_number (Some n) }
{
    u32::try_from(n).ok()
}

fn value(byte: u8) -> Option<bool>
    ensures { result ≡ value_of byte }
{
    match byte {
        b'1' => Some(true),
        b'0' | b'x' => Some(false),
        _ => None,
    }
}

/// The values that the line spells, where it has so many characters and each is a value.
pub fn bits(alloc: Global, line: &[u8], width: u32) -> Result<Option<Bits>, OutOfMemory>
    ensures { IfOk result (λ bits. bits ≡ bits_of width line.now) }
{
    if line.len() != width as usize {
        return Ok(None);
    }
    let mut bits = Bits::new(alloc);
    for byte in line {
        let Some(bit) = value(*byte) else {
            return Ok(None);
        };
        bits.push(bit)?;
    }
    Ok(Some(bits))
}
