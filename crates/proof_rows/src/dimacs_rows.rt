//! Rows of the DIMACS format.

use DimacsKind::{Count, Header, Limit, Literal, Truncated};
use cnf_base::{DimacsFault, DimacsKind, Formula, read_dimacs, write_dimacs};
use std::alloc::Global;
use std::test::Fail;
use text_words::lines_at_most_bytes;

/// A text, and the line and the kind of its first fault.
type FaultRow = (&'static [u8], u32, DimacsKind);

const FAULT_ROWS: &[FaultRow] = &[
    (b"", 1, Header),
    (b" \t \n\n", 2, Header),
    (b"c x\nc y", 2, Header),
    (b"c x\n\np cnf 1 1 1\n", 3, Header),
    (b"p cnf -1 0", 1, Header),
    (b"p cnf 99999999999999999999999 x", 1, Header),
    (b"p cnf 99999999999999999999999 1", 1, Limit),
    (b"p cnf 4000001 0", 1, Limit),
    (b"p cnf 0 20000001", 1, Limit),
    (b"p cnf 1 2\n1 0", 2, Count),
    (b"p cnf 1 2\n1 0\nc\n\n", 4, Count),
    (b"p cnf 1 1\n1 0\n1\n0 x", 4, Count),
    (b"p cnf 1 1\n1 2 0", 2, Literal),
    (b"p cnf 1 1\n1\n c 0", 3, Literal),
    (b"p cnf 1 1\n+1 0", 2, Literal),
    (b"p cnf 4000000 1\n-2147483648 0", 2, Literal),
    (b"p cnf 1 1\n1\n\n", 3, Truncated),
    (b"p cnf 1 2\n1 0\n1", 3, Truncated),
];

fn is_fault_row(alloc: Global, row: &FaultRow) -> bool {
    let (text, line, kind) = *row;
    if text.len() >= 1000 {
        return false;
    }
    lines_at_most_bytes(text);
    match read_dimacs(alloc, text) {
        Ok(_) => false,
        Err(fault) => fault == DimacsFault::At { line, kind },
    }
}

#[test]
fn faults_at_their_lines(rt: HostRuntime) {
    for (place, row) in FAULT_ROWS.iter().enumerate() {
        assert!(rt; is_fault_row(rt.alloc(), row), "row {place}");
    }
}

/// A text, and how its formula is written.
type WrittenRow = (&'static [u8], &'static [u8]);

const WRITTEN_ROWS: &[WrittenRow] = &[
    (b"p cnf 1 2\n1 0\n-1 0\n", b"p cnf 1 2\n1 0\n-1 0\n"),
    (b"p cnf 0 0", b"p cnf 0 0\n"),
    (b"p cnf 0 1\n0\n", b"p cnf 0 1\n0\n"),
    (
        b"c\r\n\t p\tcnf 002 1 \r\r\n1\ncx 1 0\n-2\r\n0",
        b"p cnf 2 1\n1 -2 0\n",
    ),
    (
        b"p cnf 2 1\n00000000000000000000000000002 -0",
        b"p cnf 2 1\n2 0\n",
    ),
    (
        b"p cnf 4000000 2\n1 -2\t3 -4 0 0",
        b"p cnf 4000000 2\n1 -2 3 -4 0\n0\n",
    ),
];

fn is_written_as(alloc: Global, formula: &Formula, wanted: &[u8]) -> Result<bool, Fail> {
    let text = write_dimacs(alloc, formula)?;
    Ok(text.as_slice() == wanted)
}

fn is_written_row(alloc: Global, row: &WrittenRow) -> Result<bool, Fail> {
    let (text, written) = *row;
    if text.len() >= 1000 {
        return Ok(false);
    }
    lines_at_most_bytes(text);
    let formula = read_dimacs(alloc, text)?;
    is_written_as(alloc, &formula, written)
}

#[test]
fn reads_and_writes(rt: HostRuntime) -> Result<(), Fail> {
    for (place, row) in WRITTEN_ROWS.iter().enumerate() {
        assert!(rt; is_written_row(rt.alloc(), row)?, "row {place}");
    }
    Ok(())
}
