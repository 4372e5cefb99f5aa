//! A report of which one thing was changed, and its first fault.

use crate::texts::{EVERY_LINE, read};
use ReportKind::{Form, Truncated};
use ketch_base::OutOfMemory;
use report_reading::{ReportFault, ReportKind};
use std::alloc::Global;
use text_words::Lines;

/// What becomes of a line; they count from 1.
enum Change {
    /// This stands in its place, and is a line or more.
    Is(&'static [u8]),
    /// The text ends with this in its place, which has no newline.
    Ends(&'static [u8]),
}

use Change::{Ends, Is};

/// A line of the report, what becomes of it, and the line and the kind of the first fault.
type Row = (u32, Change, u32, ReportKind);

const ROWS: [Row; 89] = [
    (1, Is(b"ketch 2"), 1, Form),
    (1, Is(b"ketch 1 "), 1, Form),
    (1, Is(b""), 1, Form),
    (2, Is(b"size 1 2"), 2, Form),
    (2, Is(b"size 1 2 4294967296"), 2, Form),
    (2, Is(b"size  1 2 3"), 2, Form),
    (2, Is(b"size 01 2 3"), 2, Form),
    (
        3,
        Is(b"options 0 1 2 3 4 18446744073709551616 7 5 6 1"),
        3,
        Form,
    ),
    (
        3,
        Is(b"options 0 1 2 3 4 7 18446744073709551616 5 6 1"),
        3,
        Form,
    ),
    (3, Is(b"options 4294967296 1 2 3 4 7 7 5 6 1"), 3, Form),
    (3, Is(b"options 0 1 2 3 4 7 7 5 6 2"), 3, Form),
    (3, Is(b"options 0 1 2 3 4 7 7 5 6"), 3, Form),
    (3, Is(b"options 0 1 2 3 4 7 7 5 6 1\r"), 3, Form),
    (4, Is(b"history 5"), 10, Form),
    (4, Is(b"history 7"), 11, Form),
    (4, Is(b"history 4294967296"), 4, Form),
    (4, Is(b"history"), 4, Form),
    (5, Is(b"0 4294967296 7 r zero 0"), 5, Form),
    (5, Is(b"18446744073709551616 0 7 r zero 0"), 5, Form),
    (5, Is(b"0 0 7 x zero 0"), 5, Form),
    (5, Is(b"0 0 7 r walk 0"), 5, Form),
    (5, Is(b"0 0 7 r walk: 0"), 5, Form),
    (5, Is(b"0 0 7 r hop:01 0"), 5, Form),
    (5, Is(b"0 0 7 r zero"), 5, Form),
    (11, Is(b"seeds 2"), 18, Form),
    (11, Is(b"seeds 4"), 21, Form),
    (12, Is(b"seed 1 none"), 12, Form),
    (12, Is(b"seed 0 nothing"), 12, Form),
    (12, Is(b"seed 0 4294967296"), 12, Form),
    (13, Is(b"seed 1 3"), 17, Form),
    (13, Is(b"seed 1 1"), 16, Form),
    (14, Is(b"1"), 14, Form),
    (14, Is(b"1x"), 14, Form),
    (15, Is(b"11"), 15, Form),
    (17, Is(b"012"), 17, Form),
    (21, Is(b"invs 1"), 30, Form),
    (22, Is(b"inv 1"), 27, Form),
    (23, Is(b"1 -2147483649 0"), 23, Form),
    (23, Is(b"1 2147483648 0"), 23, Form),
    (23, Is(b"1 2"), 23, Form),
    (23, Is(b"1 0 0"), 23, Form),
    (23, Is(b"01 0"), 23, Form),
    (23, Is(b"-0 0"), 23, Form),
    (24, Is(b"proof 1"), 26, Form),
    (24, Is(b"proof 3"), 27, Form),
    (25, Is(b"9223372036854775808 0 0"), 25, Form),
    (25, Is(b"0 1 0 1 0"), 25, Form),
    (25, Is(b"1 1 0  1 0"), 25, Form),
    (25, Is(b"1 01 0 1 0"), 25, Form),
    (25, Is(b"c a comment"), 25, Form),
    (25, Is(b""), 25, Form),
    (26, Is(b"7 d 1 -2 0"), 26, Form),
    (26, Is(b"7 d 1 2"), 26, Form),
    (31, Is(b"goals 3"), 42, Form),
    (31, Is(b"goals 5"), 43, Form),
    (32, Is(b"goal 1 reached 0"), 32, Form),
    (32, Is(b"goal 0 settled 0"), 32, Form),
    (32, Is(b"goal 0 reached 18446744073709551616"), 32, Form),
    (33, Is(b"2"), 33, Form),
    (34, Is(b"b1"), 34, Form),
    (34, Is(b"b00"), 34, Form),
    (36, Is(b"."), 36, Form),
    (37, Is(b"x"), 37, Form),
    (39, Is(b"goal 1 unreachable 2 inv"), 39, Form),
    (39, Is(b"goal 1 unreachable 2 inv 4294967296"), 39, Form),
    (
        41,
        Is(b"goal 2 open depth none hops 3 nothing strength 2"),
        41,
        Form,
    ),
    (41, Is(b"goal 2 open depth no hops strength 2"), 41, Form),
    (
        41,
        Is(b"goal 2 open depth none hops 3 none noseed"),
        41,
        Form,
    ),
    (44, Is(b"spent zero 1"), 44, Form),
    (44, Is(b"refute sweep 1"), 44, Form),
    (45, Is(b"blocked 3 0 4294967295 1"), 45, Form),
    (45, Is(b"blocked 3 0 0 1"), 45, Form),
    (45, Is(b"blocked 2 0 1 2"), 45, Form),
    (45, Is(b"blocked 3 0 1"), 45, Form),
    (45, Is(b"blocked 1 4294967296"), 45, Form),
    (50, Is(b"spent kept 0 3"), 53, Form),
    (57, Is(b"refute kept 0 0"), 57, Form),
    (63, Is(b"end 1 4294967296 0"), 63, Form),
    (63, Is(b"end 1 1 0\nend 1 1 0"), 64, Form),
    (1, Ends(b""), 1, Truncated),
    (1, Ends(b"ketch 1"), 1, Form),
    (2, Ends(b""), 2, Truncated),
    (11, Ends(b""), 11, Truncated),
    (14, Ends(b""), 14, Truncated),
    (25, Ends(b""), 25, Truncated),
    (37, Ends(b""), 37, Truncated),
    (45, Ends(b"blocked 3 0 1 4294967295"), 45, Form),
    (63, Ends(b""), 63, Truncated),
    (63, Ends(b"end 1 4294967295 0"), 63, Form),
];

fn add_line(text: &mut Vec<u8>, line: &[u8]) -> Result<(), OutOfMemory> {
    text.extend_from_slice(line)?;
    text.push(b'\n')?;
    Ok(())
}

/// The report with the change.
fn changed(alloc: Global, line: u32, change: &Change) -> Result<Vec<u8>, OutOfMemory> {
    let mut text = Vec::new(alloc);
    let mut left = line;
    for old in Lines::new(EVERY_LINE) {
        if left != 1 {
            add_line(&mut text, old)?;
        } else {
            match change {
                Is(other) => add_line(&mut text, other)?,
                Ends(other) => {
                    text.extend_from_slice(other)?;
                    return Ok(text);
                }
            }
        }
        left = left.saturating_sub(1);
    }
    Ok(text)
}

fn is_refused(alloc: Global, row: &Row) -> Result<bool, OutOfMemory> {
    let (number, change, line, kind) = row;
    let text = changed(alloc, *number, change)?;
    let fault = ReportFault::At {
        line: *line,
        kind: *kind,
    };
    Ok(read(alloc, &text).err() == Some(fault))
}

#[test]
fn the_first_fault_is_named(rt: HostRuntime) {
    for (place, row) in ROWS.iter().enumerate() {
        assert!(rt; is_refused(rt.alloc(), row) == Ok(true), "row {place}");
    }
}
