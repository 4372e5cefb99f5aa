//! The words of a line.

ghost use Rattle.std.specs.Prelude.{◌≡◌, ◌∷◌, ◌<◌, ◌≤◌, false, not, length, slice_index};
ghost use Rattle.std.specs.List.{position_or_len};
ghost use Rattle.text_words.specs.Words.{separates, words, content};

use std::marker::Model;

/// What stands between words, and at both ends of a line.
#[derive(Clone, Copy, Debug, PartialEq, Eq)]
pub enum Separators {
    Spaces,
    /// Spaces and tabs.
    Blanks,
}

impl Separators {
    fn contains(self, byte: u8) -> bool
        ensures { result ≡ separates self byte }
    {
        match self {
            Separators::Spaces => byte == b' ',
            Separators::Blanks => byte == b' ' || byte == b'\t',
        }
    }
}

/// The words of a line that are still to come, from the first on.
#[derive(Drop)]
pub struct Words<'a> {
    rest: &'a [u8],
    separators: Separators,
}

impl<'a> Model for Words<'a> {
    ghost use Rattle.std.specs.Prelude.{ℕ, List};
    ghost use Rattle.text_words.specs.Words.{words};

    ghost Value = { List (List ℕ) };

    ghost view = { λ w. words w.separators w.rest.now };
}

impl<'a> Words<'a> {
    pub fn new(line: &'a [u8], separators: Separators) -> Words<'a>
        ensures { result ≡ words separators line.now }
    {
        Words {
            rest: line,
            separators,
        }
    }

    /// The words of a line, but for a comment, which begins with the letter c.
    pub fn of_content(line: &'a [u8], separators: Separators) -> Words<'a>
        ensures { result ≡ content separators line.now }
    {
        match line {
            [b'c', ..] => Words::new(&[], separators),
            _ => Words::new(line, separators),
        }
    }

    /// The same words, to be walked apart from these.
    pub fn copy(&self) -> Words<'a>
        ensures { result ≡ self.now }
    {
        Words {
            rest: self.rest,
            separators: self.separators,
        }
    }
}

impl<'a> Iterator for Words<'a> {
    type Item = &'a [u8];

    ghost use Rattle.std.specs.Iterator.{YieldsFirstBy, item_count};

    ghost next_gives = { YieldsFirstBy (λ word. word.now) (λ s. s) };

    ghost remaining = { item_count (λ s. s) };

    fn next(&mut self) -> Option<&'a [u8]> {
        let rest = skip_separators(self.rest, self.separators);
        if rest.is_empty() {
            self.rest = rest;
            return None;
        }
        let (word, rest) = split_word(rest, self.separators);
        self.rest = rest;
        Some(word)
    }
}

/// What is left from the first byte of a word on.
fn skip_separators(line: &[u8], separators: Separators) -> &[u8]
    ensures same { words separators result.now ≡ words separators line.now }
    ensures begins { 0 < length result.now → separates separators (slice_index result.now 0) ≡ false }
{
    let start = first_of_word(line, separators);
    &line[start..]
}

/// The word at the front, and what follows it.
fn split_word(line: &[u8], separators: Separators) -> (&[u8], &[u8])
    requires some { 0 < length line.now }
    requires begins { separates separators (slice_index line.now 0) ≡ false }
    ensures { words separators line.now ≡ result.0.now ∷ words separators result.1.now }
{
    let end = first_separator(line, separators);
    (&line[..end], &line[end..])
}

/// The place of the first byte that is no separator, or the length.
fn first_of_word(line: &[u8], separators: Separators) -> usize
    ensures place { result ≡ position_or_len (λ b. not (separates separators b)) line.now }
    ensures within { result ≤ length line.now }
{
    for (place, byte) in line.iter().enumerate() {
        if !separators.contains(*byte) {
            return place;
        }
    }
    line.len()
}

/// The place of the first separator, or the length.
fn first_separator(line: &[u8], separators: Separators) -> usize
    ensures place { result ≡ position_or_len (separates separators) line.now }
    ensures within { result ≤ length line.now }
{
    for (place, byte) in line.iter().enumerate() {
        if separators.contains(*byte) {
            return place;
        }
    }
    line.len()
}
