//! Gates and the order in which they can be evaluated, and gates with cycles.

ghost use Rattle.std.specs.Prelude.{◌≡◌, ◌%◌, All, IsTrue, IfOk};
ghost use Rattle.std.specs.List.Sorted.{IsStrictlyIncreasing};
ghost use Rattle.aig_model.specs.WellFormed.{left_sides};
ghost use Rattle.gate_order.specs.GateOrder.{DefineApart};

use aig_model::{AndGate, Gates, Lit};
use gate_order::{OrderFault, order_gates};
use ketch_base::OutOfMemory;
use std::alloc::Global;

/// Left side, left input and right input.
type Line = (u32, u32, u32);

struct Row {
    lines: &'static [Line],
    /// The left sides in order.
    sides: &'static [u32],
}

const ROWS: [Row; 10] = [
    Row {
        lines: &[],
        sides: &[],
    },
    // gates in order, as most files have them
    Row {
        lines: &[(6, 2, 5), (8, 6, 7), (12, 9, 3), (14, 12, 6)],
        sides: &[6, 8, 12, 14],
    },
    // the same, but for two lines
    Row {
        lines: &[(6, 2, 5), (8, 6, 7), (14, 12, 6), (12, 9, 3)],
        sides: &[6, 8, 12, 14],
    },
    // left sides that rise, but a gate that uses a later one on either side
    Row {
        lines: &[(6, 2, 5), (8, 13, 7), (12, 2, 3), (14, 8, 6)],
        sides: &[6, 12, 8, 14],
    },
    Row {
        lines: &[(6, 2, 5), (8, 6, 12), (12, 2, 3), (14, 8, 6)],
        sides: &[6, 12, 8, 14],
    },
    // the order of the file, though an input that is no gate is above its gate
    Row {
        lines: &[(6, 20, 5), (8, 6, 21)],
        sides: &[6, 8],
    },
    // the least left side that is ready, not the first line
    Row {
        lines: &[(8, 4, 10), (10, 13, 15), (12, 2, 6), (14, 3, 7)],
        sides: &[12, 14, 10, 8],
    },
    // a chain from its end, through negated inputs
    Row {
        lines: &[(20, 19, 17), (18, 17, 2), (16, 15, 3), (14, 2, 3)],
        sides: &[14, 16, 18, 20],
    },
    // both inputs of one gate, and a gate that becomes ready before a greater one
    Row {
        lines: &[(12, 10, 11), (6, 12, 13), (10, 2, 2), (14, 0, 1)],
        sides: &[10, 12, 6, 14],
    },
    // variable 0 is no gate unless a gate defines it
    Row {
        lines: &[(2, 0, 1), (0, 4, 4)],
        sides: &[0, 2],
    },
];

struct Looped {
    lines: &'static [Line],
    lhs: u32,
}

const LOOPED: [Looped; 7] = [
    Looped {
        lines: &[(4, 6, 2), (6, 4, 2)],
        lhs: 4,
    },
    // a gate that uses itself, on either side
    Looped {
        lines: &[(8, 2, 2), (6, 2, 7)],
        lhs: 6,
    },
    Looped {
        lines: &[(8, 9, 2), (6, 2, 2)],
        lhs: 8,
    },
    // the last of gates whose left sides rise
    Looped {
        lines: &[(4, 2, 3), (6, 4, 2), (8, 9, 6)],
        lhs: 8,
    },
    Looped {
        lines: &[(4, 2, 3), (6, 4, 2), (8, 6, 8)],
        lhs: 8,
    },
    // a gate that only depends on a cycle has the least left side
    Looped {
        lines: &[(10, 12, 2), (12, 10, 2), (4, 2, 10), (2, 1, 1)],
        lhs: 4,
    },
    // a gate that a cycle uses is none of those that are named
    Looped {
        lines: &[(10, 13, 4), (12, 11, 4), (4, 2, 2), (14, 4, 12)],
        lhs: 10,
    },
];

fn gates_of(alloc: Global, lines: &[Line]) -> Result<Gates, OutOfMemory> {
    let mut gates = Gates::new(alloc);
    for (lhs, left, right) in lines {
        gates.push(AndGate {
            lhs: Lit::new(*lhs),
            left: Lit::new(*left),
            right: Lit::new(*right),
        })?;
    }
    Ok(gates)
}

fn sides_of(alloc: Global, gates: &[AndGate]) -> Result<Vec<u32>, OutOfMemory>
    ensures { IfOk result (λ sides. sides.items ≡ left_sides gates.now) }
{
    let sides = gates.iter().map(|gate| gate.lhs.value()).collect(alloc)?;
    Ok(sides)
}

fn are_even(sides: &[u32]) -> bool
    ensures { IsTrue result → All (λ side. side % 2 ≡ 0) sides.now }
{
    sides.iter().all(|side| *side % 2 == 0)
}

fn are_rising(sides: &[u32]) -> bool
    ensures { IsTrue result → IsStrictlyIncreasing sides.now }
{
    for place in 1..sides.len() {
        if sides[place - 1] >= sides[place] {
            return false;
        }
    }
    true
}

/// Whether each left side is even and no two are equal.
fn are_apart(alloc: Global, gates: &Gates) -> Result<bool, OutOfMemory>
    ensures { IfOk result (λ apart. IsTrue apart → DefineApart gates.now) }
{
    let mut sides = sides_of(alloc, gates.as_slice())?;
    sides.sort_unstable();
    Ok(are_even(sides.as_slice()) && are_rising(sides.as_slice()))
}

fn ordered(alloc: Global, gates: &Gates) -> Result<Gates, OrderFault> {
    if !are_apart(alloc, gates)? {
        return Err(OrderFault::OutOfMemory);
    }
    order_gates(alloc, gates)
}

fn are_sides(gates: &[AndGate], sides: &[u32]) -> bool {
    gates.len() == sides.len()
        && gates
            .iter()
            .zip(sides)
            .all(|(gate, side)| gate.lhs.value() == *side)
}

fn has_order(alloc: Global, gates: &Gates, sides: &[u32]) -> bool {
    match ordered(alloc, gates) {
        Ok(ordered) => are_sides(ordered.as_slice(), sides),
        Err(_) => false,
    }
}

fn is_ordered(alloc: Global, row: &Row) -> bool {
    match gates_of(alloc, row.lines) {
        Ok(gates) => has_order(alloc, &gates, row.sides),
        Err(_) => false,
    }
}

#[test]
fn gates_are_ordered(rt: HostRuntime) {
    for (place, row) in ROWS.iter().enumerate() {
        assert!(rt; is_ordered(rt.alloc(), row), "row {place}");
    }
}

fn has_cycle(alloc: Global, row: &Looped) -> bool {
    let lhs = Lit::new(row.lhs);
    match gates_of(alloc, row.lines) {
        Ok(gates) => ordered(alloc, &gates).err() == Some(OrderFault::Cycle { lhs }),
        Err(_) => false,
    }
}

#[test]
fn cycles_are_named(rt: HostRuntime) {
    for (place, row) in LOOPED.iter().enumerate() {
        assert!(rt; has_cycle(rt.alloc(), row), "row {place}");
    }
}
