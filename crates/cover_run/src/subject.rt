//! The circuit and the signals of a command.

ghost use Rattle.std.specs.Prelude.{◌≡◌, ◌≤◌, true, false, IfOk, IfErr, OnOk, length};
ghost use Rattle.run_io.specs.Desk.{HasSameTexts};
ghost use Rattle.cover_run.specs.CircuitText.{is_binary, SpellsIn, SpellsCircuit};
ghost use Rattle.signal_list.specs.SignalText.{SpellsSignals};
ghost use Rattle.command_words.specs.Commands.{subject_named};
ghost use Rattle.cover_run.specs.Covering.{HasCircuit, HasSignals};
ghost use Rattle.cover_run.specs.Files.{subject_files, IsAllRead, HasRead};
ghost use Rattle.cover_run.specs.Seen.{seen};
ghost use Rattle.cover_run.specs.Steps.{CircuitCause, CircuitCauseIn, SignalsCause, SubjectCause};
ghost use Rattle.command_words.specs.Stops.{is_of_devices};

use crate::part::read_part;
use aig_ascii::{AagFault, read_aag};
use aig_binary::{AigFault, read_aig};
use aig_model::{Circuit, Signals};
use command_words::{CircuitKind, File, Stop, Subject};
use run_io::Desk;
use signal_list::{SigFault, read_signals};
use std::alloc::Global;
use text_words::lines_at_most_bytes;

fn ascii_circuit(alloc: Global, bytes: &[u8]) -> Result<Circuit, Stop>
    requires { length bytes.now ≤ 67108864 }
    ensures circuit { IfOk result (SpellsIn false bytes.now) }
    ensures cause { IfErr result (CircuitCauseIn false bytes.now) }
    ensures read { IfErr result (λ stop. is_of_devices stop ≡ false) }
{
    match read_aag(alloc, bytes) {
        Ok(circuit) => Ok(circuit),
        Err(AagFault::At { at, kind }) => Err(Stop::BadCircuit {
            at,
            kind: CircuitKind::Ascii(kind),
        }),
        Err(AagFault::OutOfMemory) => Err(Stop::OutOfMemory),
    }
}

fn binary_circuit(alloc: Global, bytes: &[u8]) -> Result<Circuit, Stop>
    requires { length bytes.now ≤ 67108864 }
    ensures circuit { IfOk result (SpellsIn true bytes.now) }
    ensures cause { IfErr result (CircuitCauseIn true bytes.now) }
    ensures read { IfErr result (λ stop. is_of_devices stop ≡ false) }
{
    match read_aig(alloc, bytes) {
        Ok(circuit) => Ok(circuit),
        Err(AigFault::At { at, kind }) => Err(Stop::BadCircuit {
            at,
            kind: CircuitKind::Binary(kind),
        }),
        Err(AigFault::OutOfMemory) => Err(Stop::OutOfMemory),
    }
}

fn is_binary(bytes: &[u8]) -> bool
    ensures { result ≡ is_binary bytes.now }
{
    bytes.starts_with(b"aig ".as_slice())
}

/// A text that begins with `aig ` is binary, and any other is ASCII.
fn circuit_of(alloc: Global, bytes: &[u8]) -> Result<Circuit, Stop>
    requires { length bytes.now ≤ 67108864 }
    ensures circuit { IfOk result (SpellsCircuit bytes.now) }
    ensures cause { IfErr result (CircuitCause bytes.now) }
    ensures read { IfErr result (λ stop. is_of_devices stop ≡ false) }
{
    if is_binary(bytes) {
        let circuit = binary_circuit(alloc, bytes)?;
        return Ok(circuit);
    }
    let circuit = ascii_circuit(alloc, bytes)?;
    Ok(circuit)
}

fn signals_of(alloc: Global, bytes: &[u8], circuit: &Circuit) -> Result<Signals, Stop>
    requires { length bytes.now ≤ 65536 }
    ensures same { IfOk result (λ signals. signals.circuit ≡ circuit.now) }
    ensures signals { IfOk result (λ signals. SpellsSignals circuit.now bytes.now signals.lits) }
    ensures cause { IfErr result (SignalsCause circuit.now bytes.now) }
    ensures read { IfErr result (λ stop. is_of_devices stop ≡ false) }
{
    lines_at_most_bytes(bytes);
    match read_signals(alloc, bytes, circuit) {
        Ok(signals) => Ok(signals),
        Err(SigFault::At { line, kind }) => Err(Stop::BadSignals { line, kind }),
        Err(SigFault::OutOfMemory) => Err(Stop::OutOfMemory),
    }
}

/// The bytes of each file go once they are read.
pub(crate) fn read_subject<D: Desk>(
    alloc: Global,
    desk: &mut D,
    subject: &Subject<'_>,
) -> Result<(Circuit, Signals), Stop>
    ensures text { HasSameTexts (D.state desk.old) (D.state desk.new) }
    ensures same { IfOk result (λ both. both.1.circuit ≡ both.0) }
    ensures circuit { IfOk result (λ both. HasCircuit (subject_named subject.now) (seen (D.state desk.old) (D.state desk.new)) both.0) }
    ensures signals { IfOk result (λ both. HasSignals (subject_named subject.now) (seen (D.state desk.old) (D.state desk.new)) both.0 both.1.lits) }
    ensures cause { IfErr result (SubjectCause (subject_named subject.now) (seen (D.state desk.old) (D.state desk.new))) }
    ensures read { OnOk result (IsAllRead (subject_files (subject_named subject.now)) (seen (D.state desk.old) (D.state desk.new))) }
    ensures left { IfErr result (HasRead (subject_files (subject_named subject.now)) (seen (D.state desk.old) (D.state desk.new))) }
{
    let circuit = {
        let bytes = read_part(alloc, desk, File::Circuit, subject.circuit)?;
        circuit_of(alloc, &bytes)?
    };
    let bytes = read_part(alloc, desk, File::Signals, subject.signals)?;
    let signals = signals_of(alloc, &bytes, &circuit)?;
    Ok((circuit, signals))
}
