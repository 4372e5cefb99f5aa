//! Circuits that are written as binary files, and those that are refused.

use aig_ascii::read_aag;
use aig_binary::{WriteAigFault, read_aig, write_aig};
use aig_model::Circuit;
use std::alloc::Global;

/// A file, and the one that is written of its circuit.
type Pair = (&'static [u8], &'static [u8]);

fn writes(alloc: Global, circuit: &Circuit, wanted: &[u8]) -> bool {
    match write_aig(alloc, circuit) {
        Ok(file) => file.as_slice() == wanted,
        Err(_) => false,
    }
}

const BINARY_FILES: [Pair; 7] = [
    (b"aig 0 0 0 0 0 0 0 0 0", b"aig 0 0 0 0 0\n"),
    // all but the comment
    (
        b"aig 7 2 1 2 4\n14\n6\n7\n\x02\x04\x03\x04\x01\x02\x02\x08i0 enable\ni1 reset\nl0 Q\no0 Q\no1 !Q\nc\nmade by hand\n",
        b"aig 7 2 1 2 4\n14\n6\n7\n\x02\x04\x03\x04\x01\x02\x02\x08i0 enable\ni1 reset\nl0 Q\no0 Q\no1 !Q\n",
    ),
    // deltas in as few bytes as they take
    (
        b"aig 2 1 0 0 1\n\x82\x80\x00\x80\x00",
        b"aig 2 1 0 0 1\n\x02\x00",
    ),
    (
        b"aig 66 64 1 1 1\n132\n132\n\x02\x80\x81\x00",
        b"aig 66 64 1 1 1\n132\n132\n\x02\x80\x01",
    ),
    // resets: none where it is 0, 1, and the latch's own literal
    (
        b"aig 3 0 3 0 0\n2 0\r\n2 1 \n6  6\n",
        b"aig 3 0 3 0 0\n2\n2 1\n6 6\n",
    ),
    (b"aig 1 1 0 0 0 1 0\n3\n", b"aig 1 1 0 0 0 1\n3\n"),
    // names out of order
    (
        b"aig 2 1 0 1 1 0 1\n4\n2\n\x01\x01c0 keep\no0 a b\n\ni0 b\n",
        b"aig 2 1 0 1 1 0 1\n4\n2\n\x01\x01i0 b\no0 a b\nc0 keep\n",
    ),
];

fn is_written(alloc: Global, pair: &Pair) -> bool {
    match read_aig(alloc, pair.0) {
        Ok(circuit) => writes(alloc, &circuit, pair.1),
        Err(_) => false,
    }
}

#[test]
fn circuits_are_written(rt: HostRuntime) {
    for (place, pair) in BINARY_FILES.iter().enumerate() {
        assert!(rt; is_written(rt.alloc(), pair), "row {place}");
    }
}

/// ASCII texts, and the binary files of their circuits: a gate's larger input comes first.
const ASCII_TEXTS: [Pair; 3] = [
    (b"aag 2 1 0 0 1\n2\n4 0 2\n", b"aig 2 1 0 0 1\n\x02\x02"),
    (b"aag 2 1 0 0 1\n2\n4 2 3\n", b"aig 2 1 0 0 1\n\x01\x01"),
    (
        b"aag 4 1 1 0 2\n2\n4 8 4\n8 6 2\n6 5 4\n",
        b"aig 4 1 1 0 2\n8 4\n\x01\x01\x02\x04",
    ),
];

fn is_turned(alloc: Global, pair: &Pair) -> bool {
    match read_aag(alloc, pair.0) {
        Ok(circuit) => writes(alloc, &circuit, pair.1),
        Err(_) => false,
    }
}

#[test]
fn ascii_circuits_are_written(rt: HostRuntime) {
    for (place, pair) in ASCII_TEXTS.iter().enumerate() {
        assert!(rt; is_turned(rt.alloc(), pair), "row {place}");
    }
}

/// An ASCII text, and the literal that is out of place in its circuit.
type Refusal = (&'static [u8], u32);

const REFUSALS: [Refusal; 7] = [
    (
        b"aag 7 2 1 2 4\n2\n4\n6 8\n6\n7\n8 4 10\n10 13 15\n12 2 6\n14 3 7\n",
        12,
    ),
    (b"aag 2 1 1 0 0\n4\n2 2\n", 4),
    (b"aag 2 2 0 0 0\n4\n2\n", 4),
    (b"aag 3 1 1 0 0\n2\n6 2\n", 6),
    (b"aag 4 1 0 0 2\n2\n4 2 2\n8 4 2\n", 8),
    // M alone is greater
    (b"aag 2 1 0 0 0\n2\n", 0),
    (b"aag 1 0 0 0 0\n", 0),
];

fn is_refused(alloc: Global, row: &Refusal) -> bool {
    match read_aag(alloc, row.0) {
        Ok(circuit) => {
            write_aig(alloc, &circuit).err() == Some(WriteAigFault::NotBinary { lit: row.1 })
        }
        Err(_) => false,
    }
}

#[test]
fn circuits_in_another_order_are_refused(rt: HostRuntime) {
    for (place, row) in REFUSALS.iter().enumerate() {
        assert!(rt; is_refused(rt.alloc(), row), "row {place}");
    }
}
