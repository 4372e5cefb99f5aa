//! The circuit, its signals, and the evidence for its goals.

ghost use Rattle.std.specs.Prelude.{◌≡◌, IfOk, All, length};
ghost use Rattle.board_bench.specs.Callers.{IsReached};

use crate::stop::Stop;
use aig_ascii::read_aag;
use aig_model::{Bits, Circuit, Rows, Signals, Trace};
use inv_cert::Evidence;
use ketch_base::OutOfMemory;
use signal_list::read_signals;
use std::alloc::Global;
use text_words::lines_at_most_bytes;

/// Ten inputs, which are the signals: a goal's digits are the row that shows it.
const INPUTS: &[u8] = b"aag 10 10 0 0 0\n2\n4\n6\n8\n10\n12\n14\n16\n18\n20\n";

const SIGNALS: &[u8] = b"i0\ni1\ni2\ni3\ni4\ni5\ni6\ni7\ni8\ni9";

const WIDTH: u32 = 10;

pub fn circuit(alloc: Global) -> Result<Circuit, Stop> {
    let circuit = read_aag(alloc, INPUTS)?;
    Ok(circuit)
}

pub fn signals(alloc: Global, circuit: &Circuit) -> Result<Signals, Stop>
    ensures { IfOk result (λ signals. signals.circuit ≡ circuit.now) }
{
    if SIGNALS.len() > 100 {
        return Err(Stop::WrongCircuit);
    }
    lines_at_most_bytes(SIGNALS);
    let signals = read_signals(alloc, SIGNALS, circuit)?;
    Ok(signals)
}

/// The inputs of one step, which are the goal's digits.
fn row_of(alloc: Global, goal: u32) -> Result<Bits, OutOfMemory>
    ensures { IfOk result (λ row. length row ≡ 10) }
{
    let mut row = Bits::new(alloc);
    let mut rest = goal;
    for _ in 0..WIDTH {
        row.push(rest % 2 == 1)?;
        rest /= 2;
    }
    Ok(row)
}

fn trace_of(alloc: Global, goal: u32) -> Result<Trace, OutOfMemory>
    ensures { IfOk result (λ trace. length trace.rows.rows ≡ 1) }
{
    let row = row_of(alloc, goal)?;
    let mut rows = Rows::new(alloc, WIDTH);
    rows.push(&row)?;
    let start = Bits::new(alloc);
    Ok(Trace { start, rows })
}

fn evidence_of(
    alloc: Global,
    circuit: &Circuit,
    signals: &Signals,
    goal: u32,
) -> Result<Evidence, Stop>
    requires { signals.now.circuit ≡ circuit.now }
    ensures { IfOk result (IsReached signals.now) }
{
    let trace = trace_of(alloc, goal)?;
    match Evidence::from_trace(alloc, circuit, signals, trace) {
        Ok(evidence) => Ok(evidence),
        Err(_) => Err(Stop::WrongCircuit),
    }
}

/// Evidence for each goal, from the one with this number on.
pub fn evidence_from(
    alloc: Global,
    circuit: &Circuit,
    signals: &Signals,
    first: u32,
) -> Result<Vec<Evidence>, Stop>
    requires { signals.now.circuit ≡ circuit.now }
    ensures { IfOk result (λ all. All (IsReached signals.now) all.items) }
{
    let goals = signals.goals();
    let mut all = Vec::new(alloc);
    let mut goal = first;
    for _ in 0..goals {
        goal = if goal >= goals - 1 { 0 } else { goal + 1 };
        let evidence = evidence_of(alloc, circuit, signals, goal)?;
        all.push(evidence)?;
    }
    Ok(all)
}
