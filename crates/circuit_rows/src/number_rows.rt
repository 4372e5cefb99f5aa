//! Numbers at the edges.

use std::alloc::{AllocError, Global};
use text_words::{integer, natural, push_integer, push_natural};

/// A word, and the natural number and the integer that it spells.
type Row = (&'static [u8], Option<u64>, Option<i64>);

const ROWS: [Row; 11] = [
    (b"", None, None),
    (b"-", None, None),
    (b"--1", None, None),
    (b"+1", None, None),
    (b"1-", None, None),
    (b"0", Some(0), Some(0)),
    (b"-0", None, Some(0)),
    (b"-007", None, Some(-7)),
    (
        b"9223372036854775807",
        Some(i64::MAX as u64),
        Some(i64::MAX),
    ),
    (b"-9223372036854775808", None, None),
    (b"99999999999999999999999", Some(u64::MAX), None),
];

fn is_number(row: &Row) -> bool {
    let (word, size, number) = *row;
    natural(word) == size && integer(word) == number
}

#[test]
fn words_spell_numbers(rt: HostRuntime) {
    for (place, row) in ROWS.iter().enumerate() {
        assert!(rt; is_number(row), "row {place}");
    }
}

fn push_edges(text: &mut Vec<u8>) -> Result<(), AllocError> {
    push_natural(text, u64::MAX)?;
    push_integer(text, i64::MIN)?;
    push_integer(text, 0)
}

fn are_written(alloc: Global, wanted: &[u8]) -> bool {
    let mut text = Vec::new(alloc);
    push_edges(&mut text).is_ok() && text.as_slice() == wanted
}

#[test]
fn numbers_are_written(rt: HostRuntime) {
    assert!(rt; are_written(rt.alloc(), b"18446744073709551615-92233720368547758080"));
}
