//! Numbers that are spelled as they are written: without leading zeros.

ghost use Rattle.std.specs.Prelude.{◌≡◌};
ghost use Rattle.report_lines.specs.Words.{small_of, signed_of};

use itoa::Buffer;
use text_words::{decimal_number, integer};

/// The number of 32 bits that the word spells.
pub fn small(word: &[u8]) -> Option<u32>
    ensures { result ≡ small_of word.now }
{
    u32::try_from(decimal_number(word)?).ok()
}

/// The number with a sign that the word spells, of a size below 2^63.
pub fn signed(word: &[u8]) -> Option<i64>
    ensures { result ≡ signed_of word.now }
{
    let number = integer(word)?;
    let mut buffer = Buffer::new();
    if buffer.format(number).as_bytes() == word {
        Some(number)
    } else {
        None
    }
}
