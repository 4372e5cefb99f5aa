//! A cursor over the bytes of a text, which reads the fields of a line in place.

ghost use Rattle.std.specs.Prelude.{◌≡◌, ◌↔◌, ℕ, List, [], not, nat_eq, min, true, false, IsTrue, OnSome};
ghost use Rattle.std.specs.Bool.{OnTrue, OnFalse};
ghost use Rattle.std.specs.List.{starts_with};
ghost use Rattle.std.specs.Option.{option_map};
ghost use Rattle.text_words.specs.Numbers.{natural_of};
ghost use Rattle.text_words.specs.Text.{ends_line, line_bytes, line_end, next_line, word, whole, PassesField, IsMagic};

use crate::bytes::{
    behind_newline, behind_spaces, digits, ends_line, has_newline, is_gap, line_bytes,
};
use std::marker::Model;

/// The place of a line's end, and whether the text ends there with no newline.
#[derive(Clone, Copy, Debug, PartialEq, Eq)]
pub struct LineEnd {
    pub at: u64,
    pub is_cut: bool,
}

/// What is left of a text, and how long the whole text is.
#[derive(Drop)]
pub struct Cursor<'a> {
    rest: &'a [u8],
    size: usize,
}

impl<'a> Model for Cursor<'a> {
    ghost use Rattle.std.specs.Prelude.{◌-◌, ◌≤◌, length};
    ghost use Rattle.text_words.specs.Text.{Rest};

    ghost Value = { Rest };

    ghost view = { λ c. record { at = c.size - length c.rest.now; bytes = c.rest.now } };

    ghost invariant = { λ c. length c.rest.now ≤ c.size };
}

impl<'a> Cursor<'a> {
    pub fn new(text: &'a [u8]) -> Cursor<'a>
        ensures { result ≡ whole text.now }
    {
        Cursor {
            rest: text,
            size: text.len(),
        }
    }

    /// The place, counted from 0.
    pub fn at(&self) -> u64
        ensures { result ≡ self.now.at }
    {
        (self.size - self.rest.len()) as u64
    }

    pub fn is_done(&self) -> bool
        ensures { IsTrue result ↔ (self.now.bytes ≡ []) }
    {
        self.rest.is_empty()
    }

    /// Passes a magic word and the space behind it, and goes on to the next field, if the text goes on so.
    pub fn magic(&mut self, magic: &[u8]) -> bool
        requires { (word : List ℕ) × IsMagic magic.now word }
        ensures value { result ≡ starts_with nat_eq self.old.bytes magic.now }
        ensures passes { OnTrue result (PassesField self.old self.new) }
        ensures stays { OnFalse result (self.new ≡ self.old) }
    {
        if !self.rest.starts_with(magic) {
            return false;
        }
        self.rest = behind_spaces(&self.rest[magic.len()..]);
        true
    }

    /// Whether a field begins here, where a line begins or a field has been passed.
    pub fn has_field(&self) -> bool
        ensures { result ≡ not (ends_line self.now.bytes) }
    {
        !ends_line(self.rest)
    }

    /// The number of the field that begins here, or the greatest u64 in place of a greater one, and goes on to the
    /// next field or to the line's end. A field that is no number is not passed.
    pub fn number(&mut self) -> Option<u64>
        requires { ends_line self.old.bytes ≡ false }
        ensures value { result ≡ option_map (λ n. min n u64.MAX) (natural_of (word self.old.bytes)) }
        ensures passes { OnSome result (PassesField self.old self.new) }
        ensures stays { result ≡ None → self.new ≡ self.old }
    {
        let (value, rest) = digits(self.rest);
        if rest.len() == self.rest.len() {
            return None;
        }
        if !is_gap(rest) {
            return None;
        }
        self.rest = behind_spaces(rest);
        Some(value)
    }

    /// Where a line ends of which no field is left.
    pub fn line_end(&self) -> LineEnd
        requires { ends_line self.now.bytes ≡ true }
        ensures { result ≡ line_end self.now }
    {
        if has_newline(self.rest) {
            LineEnd {
                at: self.at(),
                is_cut: false,
            }
        } else {
            LineEnd {
                at: self.size as u64,
                is_cut: true,
            }
        }
    }

    /// Goes on to the next line, or to the text's end.
    pub fn next_line(&mut self)
        ensures { self.new ≡ next_line self.old }
    {
        self.rest = behind_newline(self.rest);
    }

    /// The bytes up to the line's end.
    pub fn line(&self) -> &'a [u8]
        ensures { result.now ≡ line_bytes self.now.bytes }
    {
        line_bytes(self.rest)
    }
}
