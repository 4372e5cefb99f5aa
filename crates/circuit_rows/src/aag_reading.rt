//! Texts of circuits that are read, and what is read of them.

use aig_ascii::read_aag;
use aig_model::{Circuit, Place, Reset};
use std::alloc::Global;
use std::test::Fail;

const ENABLE_AND_RESET: &[u8] =
    b"aag 7 2 1 2 4\n2\n4\n6 8\n6\n7\n8 4 10\n10 13 15\n12 2 6\n14 3 7\n";

/// The gates in the order in which they can be evaluated.
const GATES: [(u32, u32, u32); 4] = [(12, 2, 6), (14, 3, 7), (10, 13, 15), (8, 4, 10)];

fn are_gates(circuit: &Circuit, wanted: &[(u32, u32, u32)]) -> bool {
    let gates = circuit.gates().as_slice();
    gates.len() == wanted.len()
        && gates.iter().zip(wanted).all(|(gate, line)| {
            (gate.lhs.value(), gate.left.value(), gate.right.value()) == *line
        })
}

#[test]
fn gates_are_put_in_order(rt: HostRuntime) -> Result<(), Fail> {
    let circuit = read_aag(rt.alloc(), ENABLE_AND_RESET)?;
    assert!(rt; circuit.top() == 7 && are_gates(&circuit, &GATES));
    Ok(())
}

const RESETS_AND_NAMES: &[u8] =
    b"aag 004 0 3  1 0 1 1 0 000000000000000000000000000000 \r\n2 3\n4  0 1 \r\n6 6 0006\r\r\n7\n1\n0\n\
        o0 Q\n\r\nl2  two words \r\nl0 \xff\rx\nc0 c\nb0 b\nc\x00 l0 \xff\n\x80 anything\n  \n";

const STARTS: [Reset; 3] = [Reset::Zero, Reset::One, Reset::Free];

fn are_starts(circuit: &Circuit, wanted: &[Reset]) -> bool {
    let latches = circuit.latches().as_slice();
    latches
        .iter()
        .zip(wanted)
        .all(|(latch, start)| latch.reset == *start)
}

const NAMES: [(Place, &'static [u8]); 5] = [
    (Place::Output(0), b"Q"),
    (Place::Latch(2), b" two words "),
    (Place::Latch(0), b"\xff\rx"),
    (Place::Constraint(0), b"c"),
    (Place::Bad(0), b"b"),
];

fn are_names(circuit: &Circuit, wanted: &[(Place, &'static [u8])]) -> bool {
    let names = circuit.names().as_slice();
    names.iter().zip(wanted).all(|(named, (place, name))| named.place == *place
        && named.name.as_slice() == *name)
}

#[test]
fn resets_and_names_are_read(rt: HostRuntime) -> Result<(), Fail> {
    let circuit = read_aag(rt.alloc(), RESETS_AND_NAMES)?;
    assert!(rt; are_starts(&circuit, &STARTS) && are_names(&circuit, &NAMES));
    Ok(())
}

/// A text, and the numbers of inputs, latches, outputs, bad literals, constraints and names.
type Row = (&'static [u8], [usize; 6]);

fn sizes(circuit: &Circuit) -> [usize; 6] {
    [
        circuit.inputs().len(),
        circuit.latches().len(),
        circuit.outputs().len(),
        circuit.bads().len(),
        circuit.constraints().len(),
        circuit.names().len(),
    ]
}

const ROWS: [Row; 14] = [
    (ENABLE_AND_RESET, [2, 1, 2, 0, 0, 0]),
    (RESETS_AND_NAMES, [0, 3, 1, 1, 1, 5]),
    (b"aag 0 0 0 0 0", [0, 0, 0, 0, 0, 0]),
    (b"aag 0 0 0 0 0 0 0 0 0\r", [0, 0, 0, 0, 0, 0]),
    (b"aag 1 0 1 2 0\n2 3\n2\n3\n", [0, 1, 2, 0, 0, 0]),
    (b"aag 1 0 1 0 0\n2 2 2", [0, 1, 0, 0, 0, 0]),
    (b"aag 9 0 1 0 0\n2 1  ", [0, 1, 0, 0, 0, 0]),
    (b"aag 1 1 0 0 0\n2\r\r", [1, 0, 0, 0, 0, 0]),
    (b"aag 1 1 0 0 0\n2\ni0 a", [1, 0, 0, 0, 0, 1]),
    (b"aag 1 1 0 0 0\n2\nc", [1, 0, 0, 0, 0, 0]),
    (b"aag 1 1 0 0 0\n2\nc\nx\ni0 a", [1, 0, 0, 0, 0, 0]),
    (b"aag 1 1 0 0 0\n2\ncx0\n", [1, 0, 0, 0, 0, 0]),
    (b"aag 1 1 0 0 0\n2\nc\r\n", [1, 0, 0, 0, 0, 0]),
    (b"aag 0 0 0 1 0\n1\n\r\n\n\no0 x\r\n", [0, 0, 1, 0, 0, 1]),
];

fn is_read(alloc: Global, row: &Row) -> bool {
    match read_aag(alloc, row.0) {
        Ok(circuit) => sizes(&circuit) == row.1,
        Err(_) => false,
    }
}

#[test]
fn sections_are_read(rt: HostRuntime) {
    for (place, row) in ROWS.iter().enumerate() {
        assert!(rt; is_read(rt.alloc(), row), "row {place}");
    }
}
