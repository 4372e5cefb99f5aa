//! The history.

ghost use Rattle.std.specs.Prelude.{◌≡◌};
ghost use Rattle.std.specs.Option.{option_map};
ghost use Rattle.report_lines.specs.Reading.{Gives};
ghost use Rattle.report_text.specs.Form.{IsCounted, FitsEntry};
ghost use Rattle.report_text.specs.Text.{history_lines};
ghost use Rattle.report_sections.specs.Pieces.{Reads};
ghost use Rattle.report_sections.specs.History.{behind_front, kind_of, numbered_of, source_of, entry_of, history_read};

use crate::items::{ItemReader, read_section};
use aig_model::Kind;
use board_core::{Entries, Entry, Source};
use report_lines::{LineWords, ReportFault, TextLines, last, small, take_number, take_small};
use std::alloc::Global;

/// What stands behind the front, where the word begins with it.
pub fn behind_front<'a>(front: &[u8], word: &'a [u8]) -> Option<&'a [u8]>
    ensures { option_map (λ rest. rest.now) result ≡ behind_front front.now word.now }
{
    let mut front = front;
    let mut word = word;
    while let [first, more @ ..] = front {
        let [byte, rest @ ..] = word else {
            return None;
        };
        if byte != first {
            return None;
        }
        front = more;
        word = rest;
    }
    Some(word)
}

fn kind(word: &[u8]) -> Option<Kind>
    ensures { result ≡ kind_of word.now }
{
    match word {
        b"r" => Some(Kind::Reached),
        b"u" => Some(Kind::Unreachable),
        _ => None,
    }
}

/// A source with a number.
fn numbered(word: &[u8]) -> Option<Source>
    ensures { result ≡ numbered_of word.now }
{
    if let Some(batch) = behind_front(b"walk:", word) {
        return Some(Source::Walk(small(batch)?));
    }
    if let Some(batch) = behind_front(b"hop:", word) {
        return Some(Source::Hop(small(batch)?));
    }
    if let Some(round) = behind_front(b"again:", word) {
        return Some(Source::Again(small(round)?));
    }
    None
}

fn source(word: &[u8]) -> Option<Source>
    ensures { result ≡ source_of word.now }
{
    if word == b"zero".as_slice() {
        return Some(Source::Zero);
    }
    if word == b"sweep".as_slice() {
        return Some(Source::Sweep);
    }
    if word == b"proved".as_slice() {
        return Some(Source::Proved);
    }
    numbered(word)
}

fn entry_in(words: LineWords<'_>) -> Option<Entry>
    ensures { result ≡ entry_of words.entry }
{
    let mut words = words;
    let number = take_number(&mut words)?;
    let caller = take_small(&mut words)?;
    let goal = take_small(&mut words)?;
    let kind = kind(words.next()?)?;
    let source = source(words.next()?)?;
    let low = take_number(&mut words)?;
    let entry = Entry {
        number,
        caller,
        goal,
        kind,
        source,
        low,
    };
    last(entry, words)
}

#[derive(Drop)]
struct EntryReader;

impl ItemReader for EntryReader {
    type Item = Entry;

    ghost use Rattle.report_lines.specs.Reading.{line_read};
    ghost use Rattle.report_sections.specs.History.{entry_of};

    ghost told = { λ _ _ p. line_read entry_of p };

    fn read(
        &self,
        _alloc: Global,
        lines: &mut TextLines<'_>,
        _number: u32,
    ) -> Result<Entry, ReportFault> {
        let entry = entry_in(lines.words());
        lines.settle(entry)
    }
}

/// The section of the history.
pub fn read_history(alloc: Global, lines: &mut TextLines<'_>) -> Result<Entries, ReportFault>
    ensures gives { Gives result lines.new (history_read lines.old) }
    ensures reads { Reads (IsCounted FitsEntry) history_lines lines.old result lines.new }
{
    read_section(alloc, lines, b"history", &EntryReader)
}
