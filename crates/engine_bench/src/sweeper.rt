//! Sweeps, and the formulas of their steps.

ghost use Rattle.std.specs.Prelude.{◌≡◌, ◌≤◌, ◌^◌, length, IfOk, replicate, false};
ghost use Rattle.sweep_search.specs.Sweep.{IsSweep};

use crate::stop::Stop;
use aig_model::{Bits, Circuit, Signals};
use cnf_base::write_dimacs;
use std::alloc::Global;
use sweep_search::{Swept, settled_goals, sweep};
use unroll::{Start, search_formula};

/// Sweeps to the depth, with no goal known before.
pub fn swept(
    alloc: Global,
    circuit: &Circuit,
    signals: &Signals,
    depth: u32,
    lemmas: u64,
) -> Result<Swept, Stop>
    requires circuit { signals.now.circuit ≡ circuit.now }
    requires small { depth ≤ 4000000 }
    requires some { 1 ≤ lemmas }
    requires few { lemmas ≤ 2 ^ 60 }
    ensures { IfOk result (IsSweep circuit.now signals.now.lits (replicate (2 ^ length signals.now.lits) false) depth lemmas false) }
{
    let width = u64::from(circuit.top()) + 1;
    if (u64::from(depth) + 1).saturating_mul(width) > 4_000_000 {
        return Err(Stop::NoFormula);
    }
    let known = Bits::all_false(alloc, signals.goals() as usize)?;
    let swept = sweep(alloc, circuit, signals, &known, depth, lemmas, false)?;
    Ok(swept)
}

/// The formula by which a step is searched whole: all that is found up to it is blocked.
pub fn search_text(
    alloc: Global,
    circuit: &Circuit,
    signals: &Signals,
    step: u32,
    lemmas: u64,
) -> Result<Vec<u8>, Stop>
    requires circuit { signals.now.circuit ≡ circuit.now }
    requires small { step ≤ 4000000 }
    requires some { 1 ≤ lemmas }
    requires few { lemmas ≤ 2 ^ 60 }
{
    let swept = swept(alloc, circuit, signals, step, lemmas)?;
    let known = Bits::all_false(alloc, signals.goals() as usize)?;
    let blocked = settled_goals(alloc, &known, &swept.found)?;
    let formula = search_formula(alloc, circuit, signals, &Start::Reset, step, &blocked)?;
    let text = write_dimacs(alloc, &formula)?;
    Ok(text)
}
