//! A text that is read line by line.

ghost use Rattle.std.specs.Prelude.{◌≡◌, ◌↔◌, ◌+◌, ◌<◌, ◌^◌, ℕ, [], length, IsTrue};
ghost use Rattle.std.specs.Option.{option_map};
ghost use Rattle.text_words.specs.Text.{behind_newline};
ghost use Rattle.report_lines.specs.Words.{before_newline, words_here};
ghost use Rattle.report_lines.specs.Reading.{Place, Gives, fault_at, next_place, settled};

use crate::fault::{ReportFault, ReportKind};
use crate::words::LineWords;
use std::marker::Model;

/// What is left of a text, and how many of its lines are read.
#[derive(Drop)]
pub struct TextLines<'a> {
    rest: &'a [u8],
    line: u32,
}

impl<'a> Model for TextLines<'a> {
    ghost use Rattle.std.specs.Prelude.{◌+◌, ◌<◌, ◌^◌, length};
    ghost use Rattle.report_lines.specs.Reading.{Place};

    ghost Value = { Place };

    ghost view = { λ t. record { line = t.line; bytes = t.rest.now } };

    ghost invariant = { λ t. t.line + length t.rest.now + 1 < 2 ^ 32 };
}

impl<'a> TextLines<'a> {
    pub fn new(text: &'a [u8]) -> TextLines<'a>
        requires { length text.now + 1 < 2 ^ 32 }
        ensures line { result.line ≡ 0 }
        ensures bytes { result.bytes ≡ text.now }
    {
        TextLines {
            rest: text,
            line: 0,
        }
    }

    pub fn is_done(&self) -> bool
        ensures { IsTrue result ↔ (self.now.bytes ≡ []) }
    {
        self.rest.is_empty()
    }

    /// How many bytes are left.
    pub fn len(&self) -> usize
        ensures value { result ≡ length self.now.bytes }
        ensures small { result + 1 < 2 ^ 32 }
    {
        self.rest.len()
    }

    /// The words of the line that begins here; none where it has no newline.
    pub fn words(&self) -> LineWords<'a>
        ensures { result ≡ words_here self.now.bytes }
    {
        LineWords::new(front(self.rest))
    }

    /// The fault of the line that begins here, or is missing here.
    pub fn fault(&self) -> ReportFault
        ensures { result ≡ fault_at self.now }
    {
        let kind = if self.rest.is_empty() {
            ReportKind::Truncated
        } else {
            ReportKind::Form
        };
        ReportFault::At {
            line: self.line + 1,
            kind,
        }
    }

    /// Goes on to the next line.
    pub fn next_line(&mut self)
        requires { 0 < length self.old.bytes }
        ensures { self.new ≡ next_place self.old }
    {
        self.rest = behind(self.rest);
        self.line += 1;
    }

    /// Goes on behind a line that was read; else the line is at fault.
    pub fn settle<A: Drop>(&mut self, read: Option<A>) -> Result<A, ReportFault>
        ensures { Gives result self.new (settled self.old read self.old.bytes) }
    {
        let Some(value) = read else {
            return Err(self.fault());
        };
        match self.rest {
            [] => Err(self.fault()),
            [_, ..] => {
                self.next_line();
                Ok(value)
            }
        }
    }
}

/// The line, without its newline; None where it has none.
fn front(rest: &[u8]) -> Option<&[u8]>
    ensures { option_map (λ line. line.now) result ≡ before_newline rest.now }
{
    for (place, byte) in rest.iter().enumerate() {
        if *byte == b'\n' {
            return Some(&rest[..place]);
        }
    }
    None
}

/// What follows the line.
fn behind(rest: &[u8]) -> &[u8]
    ensures bytes { result.now ≡ behind_newline rest.now }
    ensures shorter { 0 < length rest.now → length result.now < length rest.now }
{
    let mut rest = rest;
    while let [byte, more @ ..] = rest {
        if *byte == b'\n' {
            return more;
        }
        rest = more;
    }
    rest
}
