//! Whether gates are seen to stand in order, which decides what is sorted and no answer.

use crate::order::standing::stand_in_order;
use aig_model::{AndGate, Gates, Lit};
use ketch_base::OutOfMemory;
use std::alloc::Global;

type Line = (u32, u32, u32);

/// Gates, and whether the left sides rise, each above the inputs of its gate.
const ROWS: [(&'static [Line], bool); 10] = [
    (&[], true),
    // gates in order, as most files have them
    (&[(6, 2, 5), (8, 6, 7), (12, 9, 3), (14, 12, 6)], true),
    // the same, but for two lines
    (&[(6, 2, 5), (8, 6, 7), (14, 12, 6), (12, 9, 3)], false),
    // left sides that rise, but a gate that uses a later one on either side
    (&[(6, 2, 5), (8, 13, 7), (12, 2, 3), (14, 8, 6)], false),
    (&[(6, 2, 5), (8, 6, 12), (12, 2, 3), (14, 8, 6)], false),
    // an input that is no gate is above its gate
    (&[(6, 20, 5), (8, 6, 21)], false),
    (&[(8, 4, 10), (10, 13, 15), (12, 2, 6), (14, 3, 7)], false),
    (&[(20, 19, 17), (18, 17, 2), (16, 15, 3), (14, 2, 3)], false),
    (&[(12, 10, 11), (6, 12, 13), (10, 2, 2), (14, 0, 1)], false),
    (&[(2, 0, 1), (0, 4, 4)], false),
];

fn gates_of(alloc: Global, lines: &[Line]) -> Result<Gates, OutOfMemory> {
    let mut gates = Gates::new(alloc);
    for (lhs, left, right) in lines {
        gates.push(AndGate {
            lhs: Lit::new(*lhs),
            left: Lit::new(*left),
            right: Lit::new(*right),
        })?;
    }
    Ok(gates)
}

fn is_seen(alloc: Global, lines: &[Line], wanted: bool) -> bool {
    match gates_of(alloc, lines) {
        Ok(gates) => stand_in_order(gates.as_slice()) == wanted,
        Err(_) => false,
    }
}

#[test]
fn gates_in_order_are_seen(rt: HostRuntime) {
    for (place, (lines, wanted)) in ROWS.iter().enumerate() {
        assert!(rt; is_seen(rt.alloc(), lines, *wanted), "row {place}");
    }
}
