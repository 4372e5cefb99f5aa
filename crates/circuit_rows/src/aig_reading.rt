//! Binary files: those that are read, with their gates and names, and those that are refused, each with the place and the
//! kind of its first fault.

use aig_binary::AigKind::{
    Delta, Header, Limit, Liveness, Number, Range, Reset, Symbol, Truncated,
};
use aig_binary::{AigFault, AigKind, read_aig};
use aig_model::{Circuit, Place, Reset as Start};
use std::alloc::Global;
use std::test::Fail;

/// A file, and the place and kind of its first fault.
type Fault = (&'static [u8], u64, AigKind);

fn is_refused(alloc: Global, row: &Fault) -> bool {
    let (file, at, kind) = *row;
    read_aig(alloc, file).err() == Some(AigFault::At { at, kind })
}

const HEADER_FAULTS: [Fault; 13] = [
    (b"", 0, Header),
    (b"aig", 0, Header),
    (b"aig\n", 0, Header),
    (b"aag 0 0 0 0 0\n", 0, Header),
    // M is I + L + A
    (b"aig 3 1 0 0 1\n", 4, Header),
    (b"aig 0 1 0 0 0\n", 4, Header),
    (b"aig 2 1 0 0 0 0 0 0 0 0\n", 4, Header),
    (b"aig 1 1 0 0 0 0 0 0 0 0\n", 22, Number),
    (b"aig 1 1 0 0\n", 11, Number),
    (b"aig 1 1 0 0", 11, Truncated),
    (b"aig 4000000 4000000 0 0 0\n", 4, Limit),
    (b"aig 1 1 0 0 0 0 0 1\n", 18, Liveness),
    (b"aig 1 1 0 0 0 0 0 0 1\n", 20, Liveness),
];

#[test]
fn header_faults(rt: HostRuntime) {
    for (place, row) in HEADER_FAULTS.iter().enumerate() {
        assert!(rt; is_refused(rt.alloc(), row), "row {place}");
    }
}

const LINE_FAULTS: [Fault; 16] = [
    (b"aig 1 0 1 0 0\n", 14, Truncated),
    (b"aig 1 0 1 0 0\n\n", 14, Number),
    (b"aig 1 0 1 0 0\n 2\n", 14, Number),
    (b"aig 1 0 1 0 0\n4\n", 14, Range),
    (b"aig 1 0 1 0 0\n2 3\n", 16, Reset),
    (b"aig 1 0 1 0 0\n2 2 0\n", 18, Number),
    (b"aig 1 1 0 1 0\nx\n", 14, Number),
    (b"aig 1 1 0 1 0\n4\n", 14, Range),
    (b"aig 1 1 0 1 0\n2 3\n", 16, Number),
    (b"aig 1 1 0 0 0 1\n", 16, Truncated),
    (b"aig 1 1 0 0 0 0 1\n4\n", 18, Range),
    (b"aig 1 1 0 0 0\ni1 a\n", 14, Symbol),
    (b"aig 1 1 0 0 0\nj0 a\n", 14, Symbol),
    (b"aig 1 0 1 0 0\n2\nl1 a\n", 16, Symbol),
    (b"aig 2 1 0 0 1\n\x02\x02x\n", 16, Symbol),
    (b"aig 2 1 0 0 1\n\x02\x02i0 a\n\ni0 b\n", 22, Symbol),
];

#[test]
fn line_faults(rt: HostRuntime) {
    for (place, row) in LINE_FAULTS.iter().enumerate() {
        assert!(rt; is_refused(rt.alloc(), row), "row {place}");
    }
}

const DELTA_FAULTS: [Fault; 17] = [
    // the left side is 4: the first delta is 1 to 4
    (b"aig 2 1 0 0 1\n\x00\x00", 14, Delta),
    (b"aig 2 1 0 0 1\n\x05\x00", 14, Delta),
    (b"aig 2 1 0 0 1\n\x05", 14, Delta),
    // five bytes at most, also where the file ends behind them
    (b"aig 2 1 0 0 1\n\x80\x80\x80\x80\x80\x00", 14, Delta),
    (b"aig 2 1 0 0 1\n\x80\x80\x80\x80\x80", 14, Delta),
    (b"aig 2 1 0 0 1\n\x80\x80\x80\x80\x10\x00", 14, Delta),
    (b"aig 2 1 0 0 1\n\xff\xff\xff\xff\x0f\x00", 14, Delta),
    // the second delta is at most the first input
    (b"aig 2 1 0 0 1\n\x02\x03", 15, Delta),
    (b"aig 2 1 0 0 1\n\x01\x80\x80\x80\x80\x80\n", 15, Delta),
    // the file ends
    (b"aig 2 1 0 0 1\n", 14, Truncated),
    (b"aig 2 1 0 0 1", 13, Truncated),
    (b"aig 2 1 0 0 1\n\x04", 15, Truncated),
    (b"aig 2 1 0 0 1\n\x82", 15, Truncated),
    (b"aig 2 1 0 0 1\n\x80\x80\x80\x80", 18, Truncated),
    (b"aig 2 1 0 0 1\n\x01\xff\xff", 17, Truncated),
    (b"aig 3 1 0 0 2\n\x02\x02\x06", 17, Truncated),
    (b"aig 66 64 1 1 1\n132\n132\n\x02\x80", 26, Truncated),
];

#[test]
fn delta_faults(rt: HostRuntime) {
    for (place, row) in DELTA_FAULTS.iter().enumerate() {
        assert!(rt; is_refused(rt.alloc(), row), "row {place}");
    }
}

/// A file, and the left sides and inputs of its gates.
type Gates = (&'static [u8], &'static [(u32, u32, u32)]);

const NAMED: &[u8] =
    b"aig 7 2 1 2 4\n14\n6\n7\n\x02\x04\x03\x04\x01\x02\x02\x08i0 enable\ni1 reset\nl0 Q\no0 Q\no1 !Q\nc\nmade by hand\n";

const GATES: [Gates; 11] = [
    (NAMED, &[(8, 6, 2), (10, 7, 3), (12, 11, 9), (14, 12, 4)]),
    (b"aig 66 64 1 1 1\n132\n132\n\x02\x80\x01", &[(132, 130, 2)]),
    (
        b"aig 12 4 4 4 4\n16 1\n10\n12\n14\n18\n20\n22\n24\n\x08\x08\x08\x08\x08\x08\x08\x08l0 tok0\nc\ntoken arbiter\n",
        &[(18, 10, 2), (20, 12, 4), (22, 14, 6), (24, 16, 8)],
    ),
    (b"aig 2 1 0 0 1\n\x04\x00", &[(4, 0, 0)]),
    (b"aig 2 1 0 0 1\n\x01\x03", &[(4, 3, 0)]),
    // any spelling of at most five bytes
    (b"aig 2 1 0 0 1\n\x82\x00\x02", &[(4, 2, 0)]),
    (
        b"aig 2 1 0 0 1\n\x82\x80\x80\x80\x00\x80\x80\x80\x80\x00",
        &[(4, 2, 2)],
    ),
    // bytes that are newlines, digits and letters
    (b"aig 6 5 0 0 1\n\x0a\x02", &[(12, 2, 0)]),
    (b"aig 80 79 0 0 1\r\nc\nc\nanything", &[(160, 61, 51)]),
    // a comment of any bytes, right behind the gates
    (
        b"aig 2 1 0 0 1\n\x02\x02c\n\x00\xff\x80 i9\nx",
        &[(4, 2, 0)],
    ),
    (b"aig 0 0 0 0 0", &[]),
];

fn are_gates(circuit: &Circuit, wanted: &[(u32, u32, u32)]) -> bool {
    let gates = circuit.gates().as_slice();
    gates.len() == wanted.len()
        && gates.iter().zip(wanted).all(|(gate, line)| {
            (gate.lhs.value(), gate.left.value(), gate.right.value()) == *line
        })
}

fn has_gates(alloc: Global, row: &Gates) -> bool {
    match read_aig(alloc, row.0) {
        Ok(circuit) => are_gates(&circuit, row.1),
        Err(_) => false,
    }
}

#[test]
fn gates_are_read(rt: HostRuntime) {
    for (place, row) in GATES.iter().enumerate() {
        assert!(rt; has_gates(rt.alloc(), row), "row {place}");
    }
}

const NAMES: [(Place, &'static [u8]); 5] = [
    (Place::Input(0), b"enable"),
    (Place::Input(1), b"reset"),
    (Place::Latch(0), b"Q"),
    (Place::Output(0), b"Q"),
    (Place::Output(1), b"!Q"),
];

fn are_names(circuit: &Circuit, wanted: &[(Place, &'static [u8])]) -> bool {
    let names = circuit.names().as_slice();
    names.len() == wanted.len()
        && names.iter().zip(wanted).all(|(named, (place, name))| {
            named.place == *place && named.name.as_slice() == *name
        })
}

#[test]
fn names_are_read(rt: HostRuntime) -> Result<(), Fail> {
    let circuit = read_aig(rt.alloc(), NAMED)?;
    assert!(rt; are_names(&circuit, &NAMES));
    Ok(())
}

/// The second latch's reset is its own literal, the third one's is missing.
const STARTS: &[u8] = b"aig 4 1 3 1 0 0 1\r\n2 1\n4  0006 \r\n9\n4\n3\nl0 two words \r\nc0 c\n";

const LATCHES: [(u32, u32, Start); 3] = [
    (4, 2, Start::One),
    (6, 4, Start::Free),
    (8, 9, Start::Zero),
];

fn are_latches(circuit: &Circuit, wanted: &[(u32, u32, Start)]) -> bool {
    let latches = circuit.latches().as_slice();
    latches.len() == wanted.len()
        && latches.iter().zip(wanted).all(|(latch, line)| {
            (latch.lit.value(), latch.next.value(), latch.reset) == *line
        })
}

#[test]
fn latches_are_read(rt: HostRuntime) -> Result<(), Fail> {
    let circuit = read_aig(rt.alloc(), STARTS)?;
    assert!(rt; are_latches(&circuit, &LATCHES) && circuit.inputs().len() == 1);
    Ok(())
}
