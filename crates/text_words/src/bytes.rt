//! Runs of bytes at the front of a slice.

ghost use Rattle.std.specs.Prelude.{◌≡◌, ◌≢◌, ◌<◌, ◌≤◌, ℕ, min, length, slice_index};
ghost use Rattle.text_words.specs.Text.{ends_line, is_gap, line_bytes, has_newline, behind_spaces, digits_after, behind_newline, behind_digits};

/// Whether a line ends here.
pub fn ends_line(rest: &[u8]) -> bool
    ensures { result ≡ ends_line rest.now }
{
    for byte in rest {
        if *byte == b'\n' {
            return true;
        }
        if *byte != b'\r' {
            return false;
        }
    }
    true
}

/// Whether no field begins here.
pub fn is_gap(rest: &[u8]) -> bool
    ensures { result ≡ is_gap rest.now }
{
    match rest {
        [b' ', ..] => true,
        _ => ends_line(rest),
    }
}

pub fn behind_spaces(rest: &[u8]) -> &[u8]
    ensures { result.now ≡ behind_spaces rest.now }
{
    let mut rest = rest;
    while let [b' ', more @ ..] = rest {
        rest = more;
    }
    rest
}

/// The number that the digits at the front write, or the greatest u64 in place of a greater one, and what is left.
pub fn digits(rest: &[u8]) -> (u64, &[u8])
    ensures value { result.0 ≡ min (digits_after 0 rest.now) u64.MAX }
    ensures rest { result.1.now ≡ behind_digits rest.now }
{
    let mut value: u64 = 0;
    for (place, byte) in rest.iter().enumerate() {
        if !byte.is_ascii_digit() {
            return (value, &rest[place..]);
        }
        value = value
            .saturating_mul(10)
            .saturating_add(u64::from(*byte - b'0'));
    }
    (value, &[])
}

/// What stands behind the first newline.
pub fn behind_newline(rest: &[u8]) -> &[u8]
    ensures { result.now ≡ behind_newline rest.now }
{
    let mut rest = rest;
    while let [byte, more @ ..] = rest {
        rest = more;
        if *byte == b'\n' {
            break;
        }
    }
    rest
}

/// The place of the first newline, or the length.
fn newline_at(rest: &[u8]) -> usize
    ensures within { result ≤ length rest.now }
    ensures before { (k : ℕ) → k < result → slice_index rest.now k ≢ 10 }
    ensures found { result < length rest.now → slice_index rest.now result ≡ 10 }
{
    for (place, byte) in rest.iter().enumerate() {
        if *byte == b'\n' {
            return place;
        }
    }
    rest.len()
}

/// The bytes up to the line's end.
pub fn line_bytes(rest: &[u8]) -> &[u8]
    ensures { result.now ≡ line_bytes rest.now }
{
    let mut end = newline_at(rest);
    while end > 0 && rest[end - 1] == b'\r' {
        end -= 1;
    }
    &rest[..end]
}

pub fn has_newline(rest: &[u8]) -> bool
    ensures { result ≡ has_newline rest.now }
{
    rest.iter().any(|byte| *byte == b'\n')
}
