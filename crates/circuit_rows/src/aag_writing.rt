//! Circuits that are written.

use aig_ascii::{read_aag, write_aag};
use aig_model::Circuit;
use std::alloc::Global;

/// A text, and the one that is written of its circuit.
type Pair = (&'static str, &'static str);

const PAIRS: [Pair; 5] = [
    ("aag 0 0 0 0 0 0 0 0 0", "aag 0 0 0 0 0\n"),
    // bad literals, but no constraints
    ("aag 1 1 0 0 0 1 0\n2\n3\n", "aag 1 1 0 0 0 1\n2\n3\n"),
    // constraints, so that the zero of the bad literals is written
    (
        "aag 1 1 0 0 0 0 2 0\n2\n3\n2\n",
        "aag 1 1 0 0 0 0 2\n2\n3\n2\n",
    ),
    // resets: none written where it is 0, 1, and the latch's own literal where it is free
    (
        "aag 5 0 3 0 0\n6 7 0\r\n8 6 1 \n10 8  10\n",
        "aag 5 0 3 0 0\n6 7\n8 6 1\n10 8 10\n",
    ),
    // gates and names out of order, and a comment
    (
        "aag 7 2 1 1 2 1 1\n2\n4\n6 13 6\n13\n7\n2\n12 8 3\n8 2 4\nc0 keep\nb0 a b\ni1 b\nl0 a\ni0 b\no0 c\nc\nby hand\n",
        "aag 7 2 1 1 2 1 1\n2\n4\n6 13 6\n13\n7\n2\n8 2 4\n12 8 3\ni0 b\ni1 b\nl0 a\no0 c\nb0 a b\nc0 keep\n",
    ),
];

fn writes(alloc: Global, circuit: &Circuit, wanted: &str) -> bool {
    match write_aag(alloc, circuit) {
        Ok(text) => text.as_slice() == wanted.as_bytes(),
        Err(_) => false,
    }
}

fn is_written(alloc: Global, pair: &Pair) -> bool {
    match read_aag(alloc, pair.0.as_bytes()) {
        Ok(circuit) => writes(alloc, &circuit, pair.1),
        Err(_) => false,
    }
}

#[test]
fn circuits_are_written(rt: HostRuntime) {
    for (place, pair) in PAIRS.iter().enumerate() {
        assert!(rt; is_written(rt.alloc(), pair), "row {place}");
    }
}
