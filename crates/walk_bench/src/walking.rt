//! Batches over a circuit and its signals.

ghost use Rattle.std.specs.Prelude.{◌≡◌, ◌<◌, ◌≤◌, IfOk};

use crate::stop::Stop;
use aig_ascii::read_aag;
use aig_model::{Circuit, Signals};
use ketch_base::OutOfMemory;
use run_io::{Desk, read_file};
use signal_list::read_signals;
use sim_lanes::lane_batch;
use sim_walk::Options;
use std::alloc::Global;
use text_words::{lines_at_most_bytes, natural};

/// How many bytes a circuit may have.
const CIRCUIT_BYTES: u64 = 1 << 30;

/// How many bytes a list of signals may have.
const SIGNALS_BYTES: u64 = 1 << 16;

pub fn number(word: &[u8]) -> Result<u32, Stop>
    ensures { IfOk result (λ number. 0 < number) }
{
    match natural(word) {
        Some(number) if number >= 1 && number <= 1_000_000 => Ok(number as u32),
        _ => Err(Stop::Usage),
    }
}

/// Batches that no stall ends before their length.
fn options(steps: u32, batches: u32) -> Options
    ensures { result.length ≡ steps }
{
    Options {
        depth: 0,
        batches,
        length: steps,
        stall: steps,
        hop: 0,
        seed: 1,
        lemmas: 1,
        strength: 0,
        rounds: 0,
        proofs: false,
    }
}

fn count_visits(
    alloc: Global,
    circuit: &Circuit,
    signals: &Signals,
    options: &Options,
) -> Result<u64, OutOfMemory>
    requires signals { signals.now.circuit ≡ circuit.now }
    requires length { 0 < options.now.length }
{
    let mut count = 0u64;
    for batch in 0..options.batches {
        let end = lane_batch(alloc, circuit, signals, options, None, batch)?;
        count = count.saturating_add(end.visits.len() as u64);
    }
    Ok(count)
}

/// How many goals the batches visit, each batch counted by itself.
pub fn visits<D: Desk>(
    alloc: Global,
    desk: &mut D,
    circuit: &[u8],
    signals: &[u8],
    steps: u32,
    batches: u32,
) -> Result<u64, Stop>
    requires { 0 < steps }
{
    let text = read_file(alloc, desk, circuit, CIRCUIT_BYTES)?;
    let circuit = read_aag(alloc, &text)?;
    let list = read_file(alloc, desk, signals, SIGNALS_BYTES)?;
    lines_at_most_bytes(&list);
    let signals = read_signals(alloc, &list, &circuit)?;
    let count = count_visits(alloc, &circuit, &signals, &options(steps, batches))?;
    Ok(count)
}
