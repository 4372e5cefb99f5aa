//! Parts that are a circuit, and parts with several faults, of which `build` names the first.

ghost use Rattle.std.specs.Prelude.{◌≡◌, [], IfOk, IsTrue};
ghost use Rattle.aig_model.specs.WellFormed.{IsSized};

use aig_model::{
    AndGate, BuildFault, Circuit, Gates, Latch, Latches, Lit, Lits, Names, Parts, Reset,
};
use ketch_base::OutOfMemory;
use std::alloc::Global;

#[derive(Clone, Copy)]
struct Row {
    top: u32,
    inputs: &'static [u32],
    latches: &'static [(u32, u32)],
    outputs: &'static [u32],
    gates: &'static [(u32, u32, u32)],
    fault: Option<BuildFault>,
}

const NONE: Row = Row {
    top: 0,
    inputs: &[],
    latches: &[],
    outputs: &[],
    gates: &[],
    fault: None,
};

const ROWS: [Row; 10] = [
    Row {
        top: 4,
        inputs: &[2],
        latches: &[(4, 9)],
        outputs: &[1, 8],
        gates: &[(6, 2, 5), (8, 7, 3)],
        ..NONE
    },
    // a literal above the greatest variable
    Row {
        outputs: &[2],
        fault: Some(BuildFault::Range { lit: 2 }),
        ..NONE
    },
    // the first section comes first
    Row {
        top: 1,
        inputs: &[2],
        latches: &[(5, 4)],
        outputs: &[6],
        fault: Some(BuildFault::Range { lit: 5 }),
        ..NONE
    },
    // any literal out of range comes before any wrong definition
    Row {
        top: 1,
        inputs: &[3],
        gates: &[(2, 2, 4)],
        fault: Some(BuildFault::Range { lit: 4 }),
        ..NONE
    },
    // odd, the constant, and defined before
    Row {
        top: 1,
        inputs: &[3],
        fault: Some(BuildFault::Defined { lit: 3 }),
        ..NONE
    },
    Row {
        top: 1,
        latches: &[(0, 0)],
        outputs: &[2],
        fault: Some(BuildFault::Defined { lit: 0 }),
        ..NONE
    },
    Row {
        top: 2,
        inputs: &[2],
        latches: &[(4, 0)],
        gates: &[(2, 4, 4)],
        fault: Some(BuildFault::Defined { lit: 2 }),
        ..NONE
    },
    // a variable that nothing defines, by the literal that uses it
    Row {
        top: 2,
        inputs: &[2],
        outputs: &[1, 5],
        fault: Some(BuildFault::Undefined { lit: 5 }),
        ..NONE
    },
    // a gate's own left side, and a later one
    Row {
        top: 2,
        inputs: &[2],
        gates: &[(4, 2, 5)],
        fault: Some(BuildFault::Order { gate: 0 }),
        ..NONE
    },
    Row {
        top: 4,
        inputs: &[2],
        gates: &[(4, 2, 3), (6, 8, 2), (8, 4, 2)],
        fault: Some(BuildFault::Order { gate: 1 }),
        ..NONE
    },
];

fn add_lits(lits: &mut Lits, values: &[u32]) -> Result<(), OutOfMemory> {
    for value in values {
        lits.push(Lit::new(*value))?;
    }
    Ok(())
}

fn add_latches(latches: &mut Latches, values: &[(u32, u32)]) -> Result<(), OutOfMemory> {
    for (lit, next) in values {
        latches.push(Latch {
            lit: Lit::new(*lit),
            next: Lit::new(*next),
            reset: Reset::Zero,
        })?;
    }
    Ok(())
}

fn add_gates(gates: &mut Gates, values: &[(u32, u32, u32)]) -> Result<(), OutOfMemory> {
    for (lhs, left, right) in values {
        gates.push(AndGate {
            lhs: Lit::new(*lhs),
            left: Lit::new(*left),
            right: Lit::new(*right),
        })?;
    }
    Ok(())
}

fn empty(alloc: Global) -> Parts
    ensures { result.names ≡ [] }
{
    Parts {
        top: 0,
        inputs: Lits::new(alloc),
        latches: Latches::new(alloc),
        outputs: Lits::new(alloc),
        bads: Lits::new(alloc),
        constraints: Lits::new(alloc),
        gates: Gates::new(alloc),
        names: Names::new(alloc),
    }
}

fn fill(parts: &mut Parts, row: &Row) -> Result<(), OutOfMemory>
    ensures { parts.new.names ≡ parts.old.names }
{
    parts.top = row.top;
    add_lits(&mut parts.inputs, row.inputs)?;
    add_latches(&mut parts.latches, row.latches)?;
    add_lits(&mut parts.outputs, row.outputs)?;
    add_gates(&mut parts.gates, row.gates)?;
    Ok(())
}

fn parts_of(alloc: Global, row: &Row) -> Result<Parts, OutOfMemory>
    ensures { IfOk result (λ parts. parts.names ≡ []) }
{
    let mut parts = empty(alloc);
    fill(&mut parts, row)?;
    Ok(parts)
}

fn is_sized(parts: &Parts) -> bool
    ensures { IsTrue result → IsSized parts.now }
{
    parts.top <= 3_999_999
        && parts.inputs.len() <= 3_999_999
        && parts.latches.len() <= 3_999_999
        && parts.outputs.len() <= 3_999_999
        && parts.bads.len() <= 3_999_999
        && parts.constraints.len() <= 3_999_999
        && parts.gates.len() <= 3_999_999
}

/// The fault of parts within the limits.
fn fault_of(alloc: Global, parts: Parts) -> Option<BuildFault>
    requires { parts.names ≡ [] }
{
    if !is_sized(&parts) {
        return Some(BuildFault::OutOfMemory);
    }
    Circuit::build(alloc, parts).err()
}

fn is_answered(alloc: Global, row: &Row) -> bool {
    match parts_of(alloc, row) {
        Ok(parts) => fault_of(alloc, parts) == row.fault,
        Err(_) => false,
    }
}

#[test]
fn build_names_the_first_fault(rt: HostRuntime) {
    for (place, row) in ROWS.iter().enumerate() {
        assert!(rt; is_answered(rt.alloc(), row), "row {place}");
    }
}
