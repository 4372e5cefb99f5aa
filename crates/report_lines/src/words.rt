//! The words of a line, each read as what is due.

ghost use Rattle.std.specs.Prelude.{◌≡◌, ◌≤◌, ◌==◌, ◌∷◌, length};
ghost use Rattle.std.specs.List.{position_or_len};
ghost use Rattle.std.specs.Option.{option_map};
ghost use Rattle.text_words.specs.Numbers.{decimal_number_of};
ghost use Rattle.report_lines.specs.Words.{parts, words_of, small_of, word, behind_name, last, count_in, Takes};
ghost use Rattle.report_lines.specs.Reading.{Gives, line_read};

use crate::fault::ReportFault;
use crate::lines::TextLines;
use crate::numbers::small;
use std::marker::Model;
use text_words::decimal_number;

/// The words of a line that are still to come. One space stands between two of them, so a word may have no bytes.
#[derive(Drop)]
pub struct LineWords<'a> {
    rest: Option<&'a [u8]>,
}

impl<'a> Model for LineWords<'a> {
    ghost use Rattle.std.specs.Prelude.{List, ℕ};
    ghost use Rattle.std.specs.Option.{option_map};
    ghost use Rattle.report_lines.specs.Words.{words_of};

    ghost Value = { List (List ℕ) };

    ghost view = { λ w. words_of (option_map (λ rest. rest.now) w.rest) };
}

impl<'a> LineWords<'a> {
    /// A line that isn't there has no words.
    pub fn new(line: Option<&'a [u8]>) -> LineWords<'a>
        ensures { result ≡ words_of (option_map (λ rest. rest.now) line.entry) }
    {
        LineWords { rest: line }
    }

    /// The same words, to be walked apart from these.
    pub fn copy(&self) -> LineWords<'a>
        ensures { result ≡ self.now }
    {
        LineWords { rest: self.rest }
    }
}

impl<'a> Iterator for LineWords<'a> {
    type Item = &'a [u8];

    ghost use Rattle.std.specs.Iterator.{YieldsFirstBy, item_count};

    ghost next_gives = { YieldsFirstBy (λ word. word.now) (λ s. s) };

    ghost remaining = { item_count (λ s. s) };

    fn next(&mut self) -> Option<&'a [u8]> {
        let (word, rest) = split_word(self.rest?);
        self.rest = rest;
        Some(word)
    }
}

/// The first word, and what follows the space behind it.
#[tactic(auto, using(crate::proofs::Splitting::split_words))]
fn split_word(line: &[u8]) -> (&[u8], Option<&[u8]>)
    ensures { parts line.now ≡ result.0.now ∷ words_of (option_map (λ rest. rest.now) result.1) }
{
    let end = first_space(line);
    if end < line.len() {
        (&line[..end], Some(&line[end + 1..]))
    } else {
        (line, None)
    }
}

/// The place of the first space, or the length.
fn first_space(bytes: &[u8]) -> usize
    ensures place { result ≡ position_or_len (λ b. b == 32) bytes.now }
    ensures within { result ≤ length bytes.now }
{
    for (place, byte) in bytes.iter().enumerate() {
        if *byte == b' ' {
            return place;
        }
    }
    bytes.len()
}

/// The next word, where it spells a number of 32 bits.
pub fn take_small(words: &mut LineWords<'_>) -> Option<u32>
    ensures { Takes result words.new (word small_of words.old) }
{
    small(words.next()?)
}

/// The next word, where it spells a number of 64 bits.
pub fn take_number(words: &mut LineWords<'_>) -> Option<u64>
    ensures { Takes result words.new (word decimal_number_of words.old) }
{
    decimal_number(words.next()?)
}

/// The words behind the first one, where that is the name.
pub fn behind_name<'a>(name: &[u8], words: LineWords<'a>) -> Option<LineWords<'a>>
    ensures { result ≡ behind_name name.now words.entry }
{
    let mut words = words;
    if words.next()? == name {
        Some(words)
    } else {
        None
    }
}

/// The value, where no word is left.
pub fn last<A: Drop>(value: A, words: LineWords<'_>) -> Option<A>
    ensures { result ≡ last value words.entry }
{
    let mut words = words;
    match words.next() {
        None => Some(value),
        Some(_) => None,
    }
}

/// The number of a line with a name and a number.
pub fn count_in(name: &[u8], words: LineWords<'_>) -> Option<u32>
    ensures { result ≡ count_in name.now words.entry }
{
    let mut words = behind_name(name, words)?;
    let count = take_small(&mut words)?;
    last(count, words)
}

pub fn read_count(name: &[u8], lines: &mut TextLines<'_>) -> Result<u32, ReportFault>
    ensures { Gives result lines.new (line_read (count_in name.now) lines.old) }
{
    let count = count_in(name, lines.words());
    lines.settle(count)
}
