//! What of a line counts.

ghost use Rattle.std.specs.Prelude.{◌≡◌};
ghost use Rattle.signal_list.specs.SignalText.{without_first_spaces, without_last_spaces, trimmed, is_signal};

/// The line without the spaces at both its ends.
pub fn trim_spaces(line: &[u8]) -> &[u8]
    ensures { result.now ≡ trimmed line.now }
{
    without_last_spaces(without_first_spaces(line))
}

fn without_first_spaces(line: &[u8]) -> &[u8]
    ensures { result.now ≡ without_first_spaces line.now }
{
    let mut start = 0;
    while start < line.len() && line[start] == b' ' {
        start += 1;
    }
    &line[start..]
}

fn without_last_spaces(line: &[u8]) -> &[u8]
    ensures { result.now ≡ without_last_spaces line.now }
{
    let mut end = line.len();
    while end > 0 && line[end - 1] == b' ' {
        end -= 1;
    }
    &line[..end]
}

/// Whether a trimmed line is a signal. Empty lines and comments are not.
pub fn is_signal(line: &[u8]) -> bool
    ensures { result ≡ is_signal line.now }
{
    !matches!(line, [] | [b'#', ..])
}
