//! The circuit and its signals, from files.

ghost use Rattle.std.specs.Prelude.{◌≡◌, IfOk, IfSome};
ghost use Rattle.aig_ascii.specs.Aag.{SpellsCircuit};

use crate::stop::Stop;
use aig_ascii::read_aag;
use aig_model::{Circuit, Signals};
use run_io::{Desk, read_file};
use signal_list::read_signals;
use std::alloc::Global;
use text_words::lines_at_most_bytes;

/// How many bytes a circuit may have.
const MOST_CIRCUIT: u64 = 1 << 30;

/// How many bytes a list of signals may have.
const MOST_SIGNALS: u64 = 1 << 20;

pub fn read_circuit<D: Desk>(alloc: Global, desk: &mut D, name: &[u8]) -> Result<Circuit, Stop>
    ensures { IfOk result (λ circuit. IfSome ((D.state desk.old).text name.now) (λ text. SpellsCircuit text circuit)) }
{
    let bytes = read_file(alloc, desk, name, MOST_CIRCUIT)?;
    let circuit = read_aag(alloc, &bytes)?;
    Ok(circuit)
}

pub fn read_named_signals<D: Desk>(
    alloc: Global,
    desk: &mut D,
    name: &[u8],
    circuit: &Circuit,
) -> Result<Signals, Stop>
    ensures { IfOk result (λ signals. signals.circuit ≡ circuit.now) }
{
    let bytes = read_file(alloc, desk, name, MOST_SIGNALS)?;
    lines_at_most_bytes(&bytes);
    let signals = read_signals(alloc, &bytes, circuit)?;
    Ok(signals)
}
