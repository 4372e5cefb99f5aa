//! Witnesses that are read, refused and written.

use WitKind::{Length, NoRows, Property, Status, Truncated};
use ketch_base::OutOfMemory;
use std::alloc::Global;
use std::test::Fail;
use wit_text::{WitFault, WitKind, Witness, push_witness, read_witness, write_witness};

/// A text, the numbers of latches and inputs that it is read for, and the place and kind of its first fault.
type Fault = (&'static [u8], u32, u32, u64, WitKind);

fn is_refused(alloc: Global, row: &Fault) -> bool {
    let (text, latches, inputs, at, kind) = *row;
    read_witness(alloc, text, latches, inputs).err() == Some(WitFault::At { at, kind })
}

const STATUS_AND_PROPERTY: [Fault; 29] = [
    (b"", 1, 0, 0, Truncated),
    (b"0\n", 1, 0, 0, Status),
    (b"\n1\nb0\n0\n\n.\n", 1, 0, 0, Status),
    (b"\r", 1, 0, 0, Status),
    (b"11\n", 1, 0, 0, Status),
    (b"2\nb0\n0\n\n.\n", 1, 0, 0, Status),
    (b" 1\nb0\n0\n\n.\n", 1, 0, 0, Status),
    (b"1 \nb0\n0\n\n.\n", 1, 0, 0, Status),
    (b"c by hand\n1\nb0\n0\n\n.\n", 1, 0, 0, Status),
    (b"1", 1, 0, 1, Truncated),
    (b"1\n", 1, 0, 2, Truncated),
    (b"1\r\n", 1, 0, 3, Truncated),
    (b"1\nc0\n", 1, 0, 2, Property),
    (b"1\nj0\n0\n\n.\n", 1, 0, 2, Property),
    (b"1\nB0\n", 1, 0, 2, Property),
    (b"1\n\n", 1, 0, 2, Property),
    (b"1\n.\n", 1, 0, 2, Property),
    (b"1\nb\n", 1, 0, 2, Property),
    (b"1\n b0\n", 1, 0, 2, Property),
    (b"1\nb 0\n", 1, 0, 2, Property),
    (b"1\nb0 \n", 1, 0, 2, Property),
    (b"1\nb-1\n", 1, 0, 2, Property),
    (b"1\nb0x\n", 1, 0, 2, Property),
    (b"1\nb4294967296\n", 1, 0, 2, Property),
    (b"1\nb9999999999\n", 1, 0, 2, Property),
    (b"1\nb00000000000\n", 1, 0, 2, Property),
    (b"1\nb18446744073709551616\n", 1, 0, 2, Property),
    (b"1\nb0", 1, 0, 4, Truncated),
    (b"1\nb0\n", 1, 0, 5, Truncated),
];

#[test]
fn faults_of_the_status_and_the_property(rt: HostRuntime) {
    for (place, row) in STATUS_AND_PROPERTY.iter().enumerate() {
        assert!(rt; is_refused(rt.alloc(), row), "row {place}");
    }
}

const START_AND_STEPS: [Fault; 25] = [
    (b"1\nb0\n00\n\n.\n", 1, 0, 5, Length),
    (b"1\nb0\n\n\n.\n", 1, 0, 5, Length),
    (b"1\nb0\n0\n\n.\n", 0, 0, 5, Length),
    (b"1\nb0\n2\n\n.\n", 1, 0, 5, Length),
    (b"1\nb0\nX\n\n.\n", 1, 0, 5, Length),
    (b"1\nb0\n0 \n\n.\n", 1, 0, 5, Length),
    (b"1\nb0\n0\n\n.\n", 4294967295, 0, 5, Length),
    (b"1\nb0\n.\n.\n", 1, 0, 5, Length),
    (b"1\nb0\n.\n.\n", 0, 0, 5, Length),
    (b"1\nb0\n0", 1, 0, 6, Truncated),
    (b"1\nb0\n0\n", 1, 0, 7, Truncated),
    (b"1\nb0\n0\n.\n", 1, 0, 7, NoRows),
    (b"1\nb0\n0\n.", 1, 0, 7, NoRows),
    (b"1\r\nb0\r\n0\r\n.\r\n\n.\n", 1, 0, 10, NoRows),
    (b"1\nb0\n\n.\n", 0, 3, 6, NoRows),
    (b"1\nb0\n0\n. \n", 1, 0, 7, Length),
    (b"1\nb0\n0\n..\n", 1, 2, 7, Length),
    (b"1\nb0\n0\n0y\n.\n", 1, 2, 7, Length),
    (b"1\nb0\n0\n0 \n.\n", 1, 2, 7, Length),
    (b"1\nb0\n0\n01\n0\n.\n", 1, 2, 10, Length),
    (b"1\nb0\n0\n01\n011\n", 1, 2, 10, Length),
    (b"1\nb0\n0\n\n0\n.\n", 1, 0, 8, Length),
    (b"1\nb0\n0\n\n", 1, 0, 8, Truncated),
    (b"1\nb0\n0\n\n\r", 1, 0, 9, Truncated),
    (b"1\nb0\n0\n01\n1x", 1, 2, 12, Truncated),
];

#[test]
fn faults_of_the_start_and_the_steps(rt: HostRuntime) {
    for (place, row) in START_AND_STEPS.iter().enumerate() {
        assert!(rt; is_refused(rt.alloc(), row), "row {place}");
    }
}

/// A text, the numbers of latches and inputs that it is read for, and what is written of its witness.
type Pair = (&'static [u8], u32, u32, &'static [u8]);

const PAIRS: [Pair; 7] = [
    (b"1\nb1\n0\n\n\n.\n", 1, 0, b"1\nb1\n0\n\n\n.\n"),
    (b"1\nb1\nx\n\n\n.\n", 1, 0, b"1\nb1\n0\n\n\n.\n"),
    (b"1\nb1\n0\n\n\n.", 1, 0, b"1\nb1\n0\n\n\n.\n"),
    (
        b"1\r\nb0001\r\r\n10x\r\n1x\n01\r\n.\r\nc anything\n\xff",
        3,
        2,
        b"1\nb1\n100\n10\n01\n.\n",
    ),
    (b"1\nb4294967295\n\n\n.\n", 0, 0, b"1\nb4294967295\n\n\n.\n"),
    (
        b"1\nb0000000000\n\nxx\n11\n.\n.\n",
        0,
        2,
        b"1\nb0\n\n00\n11\n.\n",
    ),
    (
        b"1\nb7\n1000000000000000000000000000000000000000000000000000000000000000x1\n1\n.\n",
        66,
        1,
        b"1\nb7\n100000000000000000000000000000000000000000000000000000000000000001\n1\n.\n",
    ),
];

fn writes(alloc: Global, witness: &Witness, wanted: &[u8]) -> bool {
    match write_witness(alloc, &witness.trace, witness.property) {
        Ok(text) => text.as_slice() == wanted,
        Err(_) => false,
    }
}

fn is_written(alloc: Global, pair: &Pair) -> bool {
    let (text, latches, inputs, wanted) = *pair;
    match read_witness(alloc, text, latches, inputs) {
        Ok(witness) => writes(alloc, &witness, wanted),
        Err(_) => false,
    }
}

#[test]
fn witnesses_are_read_and_written(rt: HostRuntime) {
    for (place, pair) in PAIRS.iter().enumerate() {
        assert!(rt; is_written(rt.alloc(), pair), "row {place}");
    }
}

const STEPS: &[u8] = b"1\nb1\n0x1\n1x\n01\n.\n";

fn has_steps(witness: &Witness) -> bool {
    let start = &witness.trace.start;
    let rows = &witness.trace.rows;
    if witness.property != 1 || start.len() != 3 || rows.len() != 2 || rows.width() != 2 {
        return false;
    }
    !start.get(0)
        && !start.get(1)
        && start.get(2)
        && rows.bit(0, 0)
        && rows.bit(1, 1)
        && !rows.bit(0, 1)
}

#[test]
fn values_are_read(rt: HostRuntime) -> Result<(), Fail> {
    let witness = read_witness(rt.alloc(), STEPS, 3, 2)?;
    assert!(rt; has_steps(&witness));
    Ok(())
}

fn push_twice(text: &mut Vec<u8>, witness: &Witness) -> Result<(), OutOfMemory> {
    push_witness(text, 12, &witness.trace)?;
    push_witness(text, 0, &witness.trace)
}

const TWO: &[u8] = b"1\nb12\n001\n10\n01\n.\n1\nb0\n001\n10\n01\n.\n";

#[test]
fn witnesses_stand_one_after_another(rt: HostRuntime) -> Result<(), Fail> {
    let witness = read_witness(rt.alloc(), STEPS, 3, 2)?;
    let mut text = Vec::new(rt.alloc());
    assert!(rt; push_twice(&mut text, &witness).is_ok());
    assert!(rt; text.as_slice() == TWO);
    Ok(())
}
