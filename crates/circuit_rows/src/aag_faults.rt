//! Texts of circuits that are refused, each with the place and the kind of its first fault.

use aig_ascii::AagKind::{
    Cycle, Defined, Header, Limit, Liveness, Number, Range, Reset, Symbol, Truncated, Undefined,
};
use aig_ascii::{AagFault, AagKind, read_aag};
use std::alloc::Global;

/// A text, and the place and kind of its first fault.
type Row = (&'static [u8], u64, AagKind);

fn is_refused(alloc: Global, row: &Row) -> bool {
    let (text, at, kind) = *row;
    read_aag(alloc, text).err() == Some(AagFault::At { at, kind })
}

const HEADER_FAULTS: [Row; 30] = [
    (b"", 0, Header),
    (b"aag", 0, Header),
    (b"aag\n", 0, Header),
    (b" aag 0 0 0 0 0", 0, Header),
    (b"aig 3 1 0 0 1\n", 0, Header),
    (b"aagx 0 0 0 0 0\n", 0, Header),
    (b"aag ", 4, Truncated),
    (b"aag \r", 5, Truncated),
    (b"aag \n", 4, Number),
    (b"aag   \r\n", 6, Number),
    (b"aag 1 0 1 0", 11, Truncated),
    (b"aag 1 0 1 0\n", 11, Number),
    (b"aag 1 0 1 0  \r\r\n", 13, Number),
    (b"aag 1 -1 0 0 0\n", 6, Number),
    (b"aag 1 0x 0 0 0\n", 6, Number),
    (b"aag 1\t0 0 0 0\n", 4, Number),
    (b"aag 0 0 0 0 0\r0\n", 12, Number),
    (b"aag 4000000 0 0 0 0\n", 4, Limit),
    (b"aag 1 99999999999999999999999 0 0 0\n", 6, Limit),
    (b"aag 0 0 0 0 0 4000000\n", 14, Limit),
    (b"aag 0 0 0 0 0 0 0 4000000\n", 18, Limit),
    (b"aag 1 0 1 0 0 0 0 1\n2 3\n", 18, Liveness),
    (b"aag 0 0 0 0 0 0 0 0 1\n", 20, Liveness),
    (b"aag 0 1 0 0 0\n", 4, Header),
    (b"aag 2 1 1 0 1\n", 4, Header),
    (b"aag   0 1 0 0 0 x\n", 16, Number),
    (b"aag 0 1 0 0 0 0 0 0 0 7\n", 4, Header),
    (b"aag 0 0 0 0 0 0 0 0 0 7\n", 22, Number),
    (b"aag 0 0 0 0 0 0 0 0 0 x\n", 22, Number),
    (b"aag 0 0 0 0 0 0 0 0 1 7\n", 20, Liveness),
];

#[test]
fn header_faults(rt: HostRuntime) {
    for (place, row) in HEADER_FAULTS.iter().enumerate() {
        assert!(rt; is_refused(rt.alloc(), row), "row {place}");
    }
}

const PLACES_ON_LINES: [Row; 24] = [
    // The file ends where a line or a field is missing.
    (b"aag 1 0 1 0 0", 13, Truncated),
    (b"aag 1 0 1 0 0\n", 14, Truncated),
    (b"aag 1 0 1 0 0\n2", 15, Truncated),
    (b"aag 1 0 1 0 0\n2 ", 16, Truncated),
    (b"aag 1 0 1 0 0\n2\r\r", 17, Truncated),
    (b"aag 1 1 0 0 0\n\r", 15, Truncated),
    // The line ends where a field is missing.
    (b"aag 1 1 0 0 0\n\n", 14, Number),
    (b"aag 1 1 0 0 0\n\r\n", 14, Number),
    (b"aag 1 0 1 0 0\n2\n", 15, Number),
    (b"aag 1 0 1 0 0\n2   \n", 18, Number),
    (b"aag 1 0 1 0 0\n2 \r\r\n", 16, Number),
    (b"aag 3 1 0 0 1\n2\n4 2\n", 19, Number),
    // A line that begins with a space.
    (b"aag 1 1 0 0 0\n 2\n", 14, Number),
    (b"aag 1 1 0 0 0\n  \n", 14, Number),
    (b"aag 1 1 0 0 0\n  ", 14, Number),
    (b"aag 1 1 0 0 0\n \r\n", 14, Number),
    // A field past the last one, and bytes that are no digits.
    (b"aag 1 1 0 0 0\n2 2\n", 16, Number),
    (b"aag 1 0 1 0 0\n2 3 0 x\n", 20, Number),
    (b"aag 2 1 0 1 0\n2\n2 2\n", 18, Number),
    (b"aag 3 1 0 0 1\n2\n4 2 2  2\n", 23, Number),
    (b"aag 1 1 0 0 0\n2\r2\n", 14, Number),
    (b"aag 1 1 0 0 0\n2 \r \n", 16, Number),
    (b"aag 1 1 0 0 0\n2x\n", 14, Number),
    (b"aag 1 1 0 0 0\n+2\n", 14, Number),
];

#[test]
fn places_on_lines(rt: HostRuntime) {
    for (place, row) in PLACES_ON_LINES.iter().enumerate() {
        assert!(rt; is_refused(rt.alloc(), row), "row {place}");
    }
}

const LITERAL_FAULTS: [Row; 25] = [
    (b"aag 1 1 0 0 0\n3\n", 14, Defined),
    (b"aag 1 1 0 0 0\n4\n", 14, Range),
    (b"aag 1 1 0 0 0\n0\n", 14, Defined),
    (b"aag 1 1 0 0 0\n1 x\n", 14, Defined),
    (b"aag 1 1 0 0 0\n99999999999999999999999999 x\n", 14, Range),
    (b"aag 2 2 0 0 0\n2\n2\n", 16, Defined),
    (b"aag 2 1 1 0 0\n2\n2 9\n", 16, Defined),
    (b"aag 2 1 1 0 0\n2\n4 6\n", 18, Range),
    (b"aag 2 1 0 0 1\n2\n2 2 2\n", 16, Defined),
    (b"aag 2 1 0 0 1\n2\n4 6 7\n", 18, Range),
    (b"aag 2 1 0 0 1\n2\n4 2 7\n", 20, Range),
    (b"aag 3 1 0 0 2\n2\n4 2 2\n4 2 2\n", 22, Defined),
    (b"aag 1 1 0 1 0\n2\n4\n", 16, Range),
    (b"aag 1 1 0 0 0 1\n2\n4\n", 18, Range),
    (b"aag 1 1 0 0 0 0 1\n2\n4\n", 20, Range),
    (b"aag 1 0 1 0 0\n2 3 4\n", 18, Reset),
    (b"aag 1 0 1 0 0\n2 3 3\n", 18, Reset),
    (b"aag 1 0 1 0 0\n2 3 18446744073709551618\n", 18, Reset),
    // Undefined literals, once all lines and symbols are right.
    (b"aag 2 1 0 1 0\n2\n4\n", 16, Undefined),
    (b"aag 2 0 1 0 0\n2 5\n", 16, Undefined),
    (b"aag 2 1 0 0 0 1\n2\n5\n", 18, Undefined),
    (b"aag 2 1 0 0 0 0 1\n2\n4\n", 20, Undefined),
    (b"aag 3 1 0 0 1\n2\n4 2 6\n", 20, Undefined),
    (b"aag 4 1 0 2 1\n2\n4\n9\n4 6 8\n", 18, Undefined),
    (b"aag 2 1 0 1 0\n2\n4\ni1 x\n", 18, Symbol),
];

#[test]
fn literal_faults(rt: HostRuntime) {
    for (place, row) in LITERAL_FAULTS.iter().enumerate() {
        assert!(rt; is_refused(rt.alloc(), row), "row {place}");
    }
}

const SYMBOL_AND_CYCLE_FAULTS: [Row; 22] = [
    (b"aag 1 1 0 0 0\n2\ni1 a\n", 16, Symbol),
    (b"aag 1 1 0 0 0\n2\n\n\ni0 a\ni0 b\n", 23, Symbol),
    (b"aag 1 0 1 0 0\n2 2\nl0 a\nl00 a\n", 23, Symbol),
    (b"aag 0 0 0 1 0\n0\no0 a\no0 a\n", 21, Symbol),
    (b"aag 0 0 0 0 0 1\n0\nb0 a\nb0 a\n", 23, Symbol),
    (b"aag 0 0 0 0 0 0 1\n0\nc0 a\nc0 a\n", 25, Symbol),
    (b"aag 0 0 0 0 0\nl0 a\n", 14, Symbol),
    (b"aag 0 0 0 0 0\nc0 a\n", 14, Symbol),
    (b"aag 0 0 0 0 0\nc5\n", 14, Symbol),
    (b"aag 1 1 0 0 0\n2\nj0 a\n", 16, Symbol),
    (b"aag 1 1 0 0 0\n2\nf0 a\n", 16, Symbol),
    (b"aag 1 1 0 0 0\n2\nx\n", 16, Symbol),
    (b"aag 1 1 0 0 0\n2\n  ", 16, Symbol),
    (b"aag 1 1 0 0 0\n2\n i0 a\n", 16, Symbol),
    (b"aag 1 1 0 0 0\n2\ni0\n", 16, Symbol),
    (b"aag 1 1 0 0 0\n2\ni0 \n", 16, Symbol),
    (b"aag 1 1 0 0 0\n2\ni0 \r\r", 16, Symbol),
    (b"aag 1 1 0 0 0\n2\ni a\n", 16, Symbol),
    (b"aag 1 1 0 0 0\n2\ni0x a\n", 16, Symbol),
    (
        b"aag 1 1 0 0 0\n2\ni99999999999999999999999 a\n",
        16,
        Symbol,
    ),
    (b"aag 3 1 0 1 2\n2\n4\n4 6 2\n6 4 2\n", 18, Cycle),
    (
        b"aag 5 1 0 0 4\n2\n8 2 10\n10 8 9\n4 2 2\n6 5 11\n",
        36,
        Cycle,
    ),
];

#[test]
fn symbol_and_cycle_faults(rt: HostRuntime) {
    for (place, row) in SYMBOL_AND_CYCLE_FAULTS.iter().enumerate() {
        assert!(rt; is_refused(rt.alloc(), row), "row {place}");
    }
}
