//! The header of a DIMACS text.

ghost use Rattle.std.specs.Prelude.{◌≡◌, ◌<◌, ◌≤◌, ◌+◌, ◌^◌, ℕ, List, ◌∷◌, [], length, MatchOption, IfOk};
ghost use Rattle.cnf_base.specs.Reading.{Gives, Says, header_of, header_in, found_of, counts_of};

use crate::fault::{DimacsFault, DimacsKind};
use text_words::{Lines, Separators, Words, natural};

const MOST_VARS: u64 = 4_000_000;

const MOST_CLAUSES: u64 = 20_000_000;

/// The numbers of `p cnf V C`.
#[derive(Clone, Copy)]
pub struct Counts {
    pub vars: u32,
    pub clauses: u32,
}

/// A header, the number of its line, and the lines after it.
#[derive(Drop)]
pub struct Found<'a> {
    pub counts: Counts,
    pub line: u32,
    pub body: Lines<'a>,
}

/// The first line that isn't blank, which must be a header.
pub fn find_header(lines: Lines<'_>) -> Result<Found<'_>, DimacsFault>
    requires { length lines < 2 ^ 32 }
    ensures exact { Gives found_of result (header_in 0 lines.entry) }
    ensures lines { IfOk result (λ f. f.line + length f.body ≡ length lines.entry) }
    ensures limits { IfOk result (λ f. (0 < f.line) × (f.counts.vars ≤ 4000000)) }
{
    let mut lines = lines;
    let mut number = 0;
    while let Some(line) = lines.next() {
        number += 1;
        let mut words = Words::of_content(line, Separators::Blanks);
        if let Some(first) = words.next() {
            return match read_header(first, words) {
                Ok(counts) => Ok(Found {
                    counts,
                    line: number,
                    body: lines,
                }),
                Err(kind) => Err(DimacsFault::At { line: number, kind }),
            };
        }
    }
    Err(DimacsFault::At {
        line: number.max(1),
        kind: DimacsKind::Header,
    })
}

/// The numbers of a header with these words.
fn read_header(first: &[u8], rest: Words<'_>) -> Result<Counts, DimacsKind>
    ensures exact { Says counts_of result (header_of (first.now ∷ rest.entry)) }
    ensures limit { IfOk result (λ counts. counts.vars ≤ 4000000) }
{
    let Some((format, vars, clauses)) = three_words(rest) else {
        return Err(DimacsKind::Header);
    };
    if first != b"p".as_slice() || format != b"cnf".as_slice() {
        return Err(DimacsKind::Header);
    }
    let (Some(vars), Some(clauses)) = (natural(vars), natural(clauses)) else {
        return Err(DimacsKind::Header);
    };
    if vars > MOST_VARS || clauses > MOST_CLAUSES {
        return Err(DimacsKind::Limit);
    }
    Ok(Counts {
        vars: vars as u32,
        clauses: clauses as u32,
    })
}

/// The words, where there are exactly three.
fn three_words(words: Words<'_>) -> Option<(&[u8], &[u8], &[u8])>
    ensures { MatchOption result
        ((a b c : List ℕ) → ¬ (words.entry ≡ a ∷ b ∷ c ∷ []))
        (λ w. words.entry ≡ w.0.now ∷ w.1.now ∷ w.2.now ∷ []) }
{
    let mut words = words;
    let first = words.next()?;
    let second = words.next()?;
    let third = words.next()?;
    if words.next().is_some() {
        return None;
    }
    Some((first, second, third))
}
