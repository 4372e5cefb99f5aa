//! Rows of the LRAT format.

use crate::tables::{Step, proof_of};
use LratKind::{Form, Number, Truncated};
use Step::{Add, Delete};
use lrat_text::{LratFault, LratKind, Proof, read_lrat, write_lrat};
use std::alloc::Global;
use std::process::Abort;
use std::test::Fail;
use text_words::lines_at_most_bytes;

/// A text, and the line and the kind of its first fault.
type FaultRow = (&'static [u8], u32, LratKind);

const FAULT_ROWS: &[FaultRow] = &[
    (b"3 0 1", 1, Truncated),
    (b"3", 1, Truncated),
    (b"3 1 2", 1, Truncated),
    (b"3 d", 1, Truncated),
    (b"3 d 1 \r\n4 d 0", 1, Truncated),
    (b"3 0 x 0", 1, Number),
    (b"3 0 d 0", 1, Number),
    (b"d 0 0", 1, Number),
    (b"3 d d 0", 1, Number),
    (b"3\td 1 0", 1, Number),
    (b"3 0 1 0 x", 1, Number),
    (b"9223372036854775808 0 0", 1, Number),
    (b"3 0 -9223372036854775808 0", 1, Number),
    (b"c\n\n3 0 0\n4 2147483648 0 0", 4, Number),
    (b"3 -2147483649 0 0", 1, Number),
    (b"3 0 1 0 5", 1, Form),
    (b"0 1 0 0", 1, Form),
    (b"-3 d 0", 1, Form),
    (b"3 0 0\n3 d 1 -1 0", 2, Form),
    (b"3 d 0 0", 1, Form),
];

fn has_fault(alloc: Global, text: &[u8], line: u32, kind: LratKind) -> bool {
    if text.len() >= 1000 {
        return false;
    }
    lines_at_most_bytes(text);
    match read_lrat(alloc, text) {
        Ok(_) => false,
        Err(fault) => fault == LratFault::At { line, kind },
    }
}

#[test]
fn faults_at_their_lines(rt: HostRuntime) {
    for (place, row) in FAULT_ROWS.iter().enumerate() {
        let (text, line, kind) = *row;
        assert!(rt; has_fault(rt.alloc(), text, line, kind), "row {place}");
    }
}

/// A text, and how its proof is written.
type WrittenRow = (&'static [u8], &'static [u8]);

const WRITTEN_ROWS: &[WrittenRow] = &[
    (b"", b""),
    (b" \ncx\n\r\n", b""),
    (b"3 0 1 2 0\n", b"3 0 1 2 0\n"),
    (
        b" 0009223372036854775807  -2147483648 -0 05 -9223372036854775807 0 \r\n",
        b"9223372036854775807 -2147483648 0 5 -9223372036854775807 0\n",
    ),
    (b"1 d 0\n2 d 1 1 0", b"1 d 0\n2 d 1 1 0\n"),
    (b"7 1 2 3 -4 5 0 0", b"7 1 2 3 -4 5 0 0\n"),
];

fn is_written_as(alloc: Global, proof: &Proof, wanted: &[u8]) -> Result<bool, Fail> {
    let text = write_lrat(alloc, proof)?;
    Ok(text.as_slice() == wanted)
}

fn is_written_row(alloc: Global, row: &WrittenRow) -> Result<bool, Fail> {
    let (text, written) = *row;
    if text.len() >= 1000 {
        return Ok(false);
    }
    lines_at_most_bytes(text);
    let proof = read_lrat(alloc, text)?;
    is_written_as(alloc, &proof, written)
}

#[test]
fn reads_and_writes(rt: HostRuntime) -> Result<(), Fail> {
    for (place, row) in WRITTEN_ROWS.iter().enumerate() {
        assert!(rt; is_written_row(rt.alloc(), row)?, "row {place}");
    }
    Ok(())
}

/// Steps with a number out of range, and the kind of the fault that their text has at line 1.
type UnwritableRow = (&'static [Step], LratKind);

const UNWRITABLE_ROWS: &[UnwritableRow] = &[
    (&[Add(3, &[], &[1, 2, 0])], Form),
    (&[Add(3, &[], &[0, 1, 2])], Form),
    (&[Add(0, &[], &[1, 2])], Form),
    (&[Add(1 << 63, &[], &[1, 2])], Number),
    (&[Add(3, &[], &[i64::MIN])], Number),
    (&[Delete(3, &[1, 0])], Form),
    (&[Delete(3, &[1 << 63])], Number),
    (&[Delete(0, &[1])], Form),
];

fn is_unreadable(alloc: Global, proof: &Proof, kind: LratKind) -> Result<bool, Fail> {
    let text = write_lrat(alloc, proof)?;
    Ok(has_fault(alloc, text.as_slice(), 1, kind))
}

fn is_unwritable_row(rt: &impl Abort, alloc: Global, row: &UnwritableRow) -> Result<bool, Fail> {
    let proof = proof_of(rt, alloc, row.0)?;
    is_unreadable(alloc, &proof, row.1)
}

#[test]
fn numbers_out_of_range(rt: HostRuntime) -> Result<(), Fail> {
    for (place, row) in UNWRITABLE_ROWS.iter().enumerate() {
        assert!(rt; is_unwritable_row(&rt, rt.alloc(), row)?, "row {place}");
    }
    Ok(())
}
