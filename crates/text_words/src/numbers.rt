//! The numbers that words spell, and how they are written.

ghost use Rattle.std.specs.Prelude.{◌≡◌, ◌^◌, ◌++◌, min, pos, OnOk, OnErr, Some};
ghost use Rattle.std.specs.Fmt.{decimal, signed_decimal};
ghost use Rattle.std.specs.Option.{option_map};
ghost use Rattle.text_words.specs.Numbers.{natural_of, decimal_number_of, integer_of, if_below};

use itoa::Buffer;
use std::alloc::AllocError;

/// The number that the word spells, or the greatest u64 in place of a greater one.
pub fn natural(word: &[u8]) -> Option<u64>
    ensures { result ≡ option_map (λ n. min n u64.MAX) (natural_of word.now) }
{
    if word.is_empty() {
        return None;
    }
    let mut value: u64 = 0;
    for byte in word {
        if !byte.is_ascii_digit() {
            return None;
        }
        value = value
            .saturating_mul(10)
            .saturating_add(u64::from(*byte - b'0'));
    }
    Some(value)
}

/// The number of 64 bits whose decimal text is the word: no sign, and no leading zeros.
pub fn decimal_number(word: &[u8]) -> Option<u64>
    ensures { result ≡ decimal_number_of word.now }
{
    let n = natural(word)?;
    let mut buffer = Buffer::new();
    if buffer.format(n).as_bytes() == word {
        Some(n)
    } else {
        None
    }
}

/// The integer that the word spells, where its size is below 2^63.
pub fn integer(word: &[u8]) -> Option<i64>
    ensures { result ≡ if_below (2 ^ 63) (integer_of word.now) }
{
    match word {
        [b'-', digits @ ..] => {
            let size = small(natural(digits)?)?;
            Some(-size)
        }
        _ => small(natural(word)?),
    }
}

fn small(size: u64) -> Option<i64>
    ensures { result ≡ if_below (2 ^ 63) (Some (pos size)) }
{
    if size < 1 << 63 {
        Some(size as i64)
    } else {
        None
    }
}

/// Writes the digits at the end.
pub fn push_natural(text: &mut Vec<u8>, value: u64) -> Result<(), AllocError>
    ensures ok { OnOk result (text.new.items ≡ text.old.items ++ decimal value) }
    ensures err { OnErr result (text.new.items ≡ text.old.items) }
{
    let mut buffer = Buffer::new();
    text.extend_from_slice(buffer.format(value).as_bytes())
}

/// Writes the digits at the end, after a minus sign where the number is negative.
pub fn push_integer(text: &mut Vec<u8>, value: i64) -> Result<(), AllocError>
    ensures ok { OnOk result (text.new.items ≡ text.old.items ++ signed_decimal value) }
    ensures err { OnErr result (text.new.items ≡ text.old.items) }
{
    let mut buffer = Buffer::new();
    text.extend_from_slice(buffer.format(value).as_bytes())
}
