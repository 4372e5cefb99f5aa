//! The top call.

ghost use Rattle.std.specs.Prelude.{◌≡◌, ◌↔◌, IfOk, IfErr, OnOk, true, false};
ghost use Rattle.run_io.specs.Desk.{HasSameTexts};
ghost use Rattle.cover_run.specs.Answer.{EarlyCause, IsOutput, IsAnswer, IsStopped, IsWhole};
ghost use Rattle.command_words.specs.Commands.{meaning_of};
ghost use Rattle.cover_run.specs.Files.{files_of, IsAllRead, HasRead};
ghost use Rattle.cover_run.specs.Promises.{WrittenCause, Headline, Completeness, AcceptedCause, AcceptedComes, PrintedCause, PrintedComes, HasEnded, IsEarly, ReadFaultCause, NoFault, BadCircuitCause, BadCircuitComes, BadSignalsCause, BadSignalsComes, LimitCause, WithinLimits, AllRead, TooMuchComes, ExportedCause, ExportedComes, ManyGoalsComes, ReplayedCause, ReplayedComes, LongWitnessComes, BadWitnessComes, MisfitComes, LongCircuitComes, LongSignalsComes, LongFormulaComes, LongProofComes, RefusedCause, BadFormulaComes, BadProofComes, BadStepComes, PrefixAfterFault, SaysLine};
ghost use Rattle.cover_run.specs.Seen.{seen, Failed, TookWhatItCould};
ghost use Rattle.command_words.specs.Stops.{is_late};
ghost use Rattle.command_words.specs.Words.{meaning, texts, Usage, HasScales};

use crate::checking::check;
use crate::covering::cover;
use crate::exporting::export;
use crate::output::Output;
use crate::replaying::replayed;
use command_words::{
    Command, Status, Stop, command_of, help_text, line_of, settled_status, status_of, version_text,
};
use job_moves::Gate;
use run_io::{Desk, Sink, write_all};
use std::alloc::Global;
use std::marker::Sync;
use std::thread::Threads;

/// A fixed text as a command's output.
fn printed(alloc: Global, text: &str) -> Result<Output, Stop>
    ensures bytes { IfOk result (λ output. output.bytes.items ≡ text.now) }
    ensures settled { IfOk result (λ output. output.settled ≡ true) }
    ensures cause { IfErr result (λ stop. stop ≡ Stop.OutOfMemory) }
{
    match Vec::from_slice(alloc, text.as_bytes()) {
        Ok(bytes) => Ok(Output {
            bytes,
            settled: true,
        }),
        Err(_) => Err(Stop::OutOfMemory),
    }
}

/// What a command asks to write. Nothing is written yet.
fn output_of<D: Desk>(alloc: Global, command: &Command<'_>, desk: &mut D) -> Result<Output, Stop>
    requires { HasScales (meaning_of command.now) }
    ensures text { HasSameTexts (D.state desk.old) (D.state desk.new) }
    ensures output { IfOk result (λ output. IsOutput (meaning_of command.now) (seen (D.state desk.old) (D.state desk.new)) output.bytes.items output.settled) }
    ensures cause { IfErr result (EarlyCause (meaning_of command.now) (seen (D.state desk.old) (D.state desk.new))) }
    ensures read { OnOk result (IsAllRead (files_of (meaning_of command.now)) (seen (D.state desk.old) (D.state desk.new))) }
    ensures left { IfErr result (HasRead (files_of (meaning_of command.now)) (seen (D.state desk.old) (D.state desk.new))) }
    ensures not_called { meaning_of command.now ≡ Usage → desk.new ≡ desk.old }
{
    match command {
        Command::Usage => Err(Stop::Usage),
        Command::Help => printed(alloc, help_text()),
        Command::Version => printed(alloc, version_text()),
        Command::Cover(call) => cover(alloc, desk, call),
        Command::Goals(subject) => export(alloc, desk, subject),
        Command::Replay(call) => replayed(alloc, desk, call),
        Command::Lrat(call) => check(alloc, desk, call),
    }
}

/// Does what a command asks for: whether nothing is left open, or what stopped it.
fn execute<D: Desk, O: Sink>(
    alloc: Global,
    command: &Command<'_>,
    desk: &mut D,
    out: &mut O,
) -> Result<bool, Stop>
    requires { HasScales (meaning_of command.now) }
    ensures text { HasSameTexts (D.state desk.old) (D.state desk.new) }
    ensures whole { IfOk result (IsWhole (meaning_of command.now) (seen (D.state desk.old) (D.state desk.new)) (seen (O.state out.old) (O.state out.new))) }
    ensures stopped { IfErr result (IsStopped (meaning_of command.now) (seen (D.state desk.old) (D.state desk.new)) (seen (O.state out.old) (O.state out.new))) }
    ensures early { IfErr result (λ stop. is_late stop ≡ false → out.new ≡ out.old) }
    ensures not_called { meaning_of command.now ≡ Usage → desk.new ≡ desk.old }
{
    let output = output_of(alloc, command, desk)?;
    match write_all(out, &output.bytes) {
        Ok(()) => Ok(output.settled),
        Err(_) => Err(Stop::CannotWrite),
    }
}

/// Writes a line to the error stream. What the stream doesn't take is dropped.
fn say<E: Sink>(err: &mut E, line: &[u8])
    ensures { TookWhatItCould (seen (E.state err.old) (E.state err.new)) line.now }
{
    match write_all(err, line) {
        Ok(()) => (),
        Err(_) => (),
    }
}

/// The answer to the words, with its line said.
fn answer<D: Desk, O: Sink, E: Sink>(
    alloc: Global,
    words: &[Vec<u8>],
    desk: &mut D,
    out: &mut O,
    err: &mut E,
) -> Status
    ensures text { HasSameTexts (D.state desk.old) (D.state desk.new) }
    ensures answer { IsAnswer (meaning (texts words.now)) (seen (D.state desk.old) (D.state desk.new)) (seen (O.state out.old) (O.state out.new)) (seen (E.state err.old) (E.state err.new)) result }
    ensures not_called { meaning (texts words.now) ≡ Usage → desk.new ≡ desk.old }
    ensures early { IsEarly result → out.new ≡ out.old }
    ensures quiet { HasEnded result → err.new ≡ err.old }
{
    let command = command_of(words);
    match execute(alloc, &command, desk, out) {
        Ok(settled) => settled_status(settled),
        Err(stop) => {
            let line = line_of(stop);
            say(err, line.as_str().as_bytes());
            status_of(stop)
        }
    }
}

/// Does what the words ask for, over files and streams.
///
/// Nobody calls the gate yet, and one thread does all the work.
pub fn run<R: Threads + Sync, D: Desk, O: Sink, E: Sink, G: Gate>(
    _rt: &R,
    alloc: Global,
    words: &[Vec<u8>],
    desk: &mut D,
    out: &mut O,
    err: &mut E,
    _gate: &G,
) -> Status
    // What statuses 0 and 1 say, on any desk, and where texts are told.
    ensures written { WrittenCause (meaning (texts words.now)) (seen (D.state desk.old) (D.state desk.new)) (seen (O.state out.old) (O.state out.new)) result }
    ensures headline { Headline (meaning (texts words.now)) (seen (D.state desk.old) (D.state desk.new)) (seen (O.state out.old) (O.state out.new)) result }
    ensures accepted { AcceptedCause (meaning (texts words.now)) (seen (D.state desk.old) (D.state desk.new)) (seen (O.state out.old) (O.state out.new)) result }
    ensures printed { PrintedCause (meaning (texts words.now)) (seen (O.state out.old) (O.state out.new)) result }

    // They come where nothing stands against it.
    ensures completeness { Completeness (meaning (texts words.now)) (seen (D.state desk.old) (D.state desk.new)) (seen (O.state out.old) (O.state out.new)) result }
    ensures accepted_comes { AcceptedComes (meaning (texts words.now)) (seen (D.state desk.old) (D.state desk.new)) (seen (O.state out.old) (O.state out.new)) result }
    ensures printed_comes { PrintedComes (meaning (texts words.now)) (seen (O.state out.old) (O.state out.new)) result }

    // The cause of each other status.
    ensures usage { (result ≡ Status.Usage) ↔ (meaning (texts words.now) ≡ Usage) }
    ensures not_called { result ≡ Status.Usage → desk.new ≡ desk.old }
    ensures read_fault { ReadFaultCause (meaning (texts words.now)) (seen (D.state desk.old) (D.state desk.new)) (seen (E.state err.old) (E.state err.new)) result }
    ensures no_fault { NoFault (seen (D.state desk.old) (D.state desk.new)) result }
    ensures limit { LimitCause (meaning (texts words.now)) (seen (D.state desk.old) (D.state desk.new)) (seen (E.state err.old) (E.state err.new)) result }
    ensures within_limits { WithinLimits (meaning (texts words.now)) (seen (D.state desk.old) (D.state desk.new)) result }
    ensures all_read { AllRead (meaning (texts words.now)) (seen (D.state desk.old) (D.state desk.new)) result }
    ensures write_fault { result ≡ Status.WriteFault → Failed (seen (O.state out.old) (O.state out.new)) }

    // Of commands that read a circuit and signals.
    ensures bad_circuit { BadCircuitCause (meaning (texts words.now)) (seen (D.state desk.old) (D.state desk.new)) (seen (E.state err.old) (E.state err.new)) result }
    ensures bad_circuit_comes { BadCircuitComes (meaning (texts words.now)) (seen (D.state desk.old) (D.state desk.new)) (seen (E.state err.old) (E.state err.new)) result }
    ensures long_circuit_comes { LongCircuitComes (meaning (texts words.now)) (seen (D.state desk.old) (D.state desk.new)) (seen (E.state err.old) (E.state err.new)) result }
    ensures bad_signals { BadSignalsCause (meaning (texts words.now)) (seen (D.state desk.old) (D.state desk.new)) (seen (E.state err.old) (E.state err.new)) result }
    ensures bad_signals_comes { BadSignalsComes (meaning (texts words.now)) (seen (D.state desk.old) (D.state desk.new)) (seen (E.state err.old) (E.state err.new)) result }
    ensures long_signals_comes { LongSignalsComes (meaning (texts words.now)) (seen (D.state desk.old) (D.state desk.new)) (seen (E.state err.old) (E.state err.new)) result }
    ensures too_much_comes { TooMuchComes (meaning (texts words.now)) (seen (D.state desk.old) (D.state desk.new)) (seen (E.state err.old) (E.state err.new)) result }

    // Of the command that prints the goal circuit.
    ensures exported { ExportedCause (meaning (texts words.now)) (seen (D.state desk.old) (D.state desk.new)) (seen (O.state out.old) (O.state out.new)) result }
    ensures exported_comes { ExportedComes (meaning (texts words.now)) (seen (D.state desk.old) (D.state desk.new)) (seen (O.state out.old) (O.state out.new)) result }
    ensures many_goals_comes { ManyGoalsComes (meaning (texts words.now)) (seen (D.state desk.old) (D.state desk.new)) (seen (E.state err.old) (E.state err.new)) result }

    // Of the command that replays a witness.
    ensures replayed { ReplayedCause (meaning (texts words.now)) (seen (D.state desk.old) (D.state desk.new)) (seen (O.state out.old) (O.state out.new)) result }
    ensures replayed_comes { ReplayedComes (meaning (texts words.now)) (seen (D.state desk.old) (D.state desk.new)) (seen (O.state out.old) (O.state out.new)) result }
    ensures long_witness_comes { LongWitnessComes (meaning (texts words.now)) (seen (D.state desk.old) (D.state desk.new)) (seen (E.state err.old) (E.state err.new)) result }
    ensures bad_witness_comes { BadWitnessComes (meaning (texts words.now)) (seen (D.state desk.old) (D.state desk.new)) (seen (E.state err.old) (E.state err.new)) result }
    ensures misfit_comes { MisfitComes (meaning (texts words.now)) (seen (D.state desk.old) (D.state desk.new)) (seen (E.state err.old) (E.state err.new)) result }

    // Of commands that refuse a proof or a witness.
    ensures refused { RefusedCause (meaning (texts words.now)) (seen (D.state desk.old) (D.state desk.new)) (seen (E.state err.old) (E.state err.new)) result }
    ensures bad_formula_comes { BadFormulaComes (meaning (texts words.now)) (seen (D.state desk.old) (D.state desk.new)) (seen (E.state err.old) (E.state err.new)) result }
    ensures long_formula_comes { LongFormulaComes (meaning (texts words.now)) (seen (D.state desk.old) (D.state desk.new)) (seen (E.state err.old) (E.state err.new)) result }
    ensures bad_proof_comes { BadProofComes (meaning (texts words.now)) (seen (D.state desk.old) (D.state desk.new)) (seen (E.state err.old) (E.state err.new)) result }
    ensures long_proof_comes { LongProofComes (meaning (texts words.now)) (seen (D.state desk.old) (D.state desk.new)) (seen (E.state err.old) (E.state err.new)) result }
    ensures bad_step_comes { BadStepComes (meaning (texts words.now)) (seen (D.state desk.old) (D.state desk.new)) (seen (E.state err.old) (E.state err.new)) result }

    // What is left of the streams and the files.
    ensures untouched { IsEarly result → out.new ≡ out.old }
    ensures prefix_after_fault { PrefixAfterFault (meaning (texts words.now)) (seen (D.state desk.old) (D.state desk.new)) (seen (O.state out.old) (O.state out.new)) result }
    ensures line { SaysLine (meaning (texts words.now)) (seen (D.state desk.old) (D.state desk.new)) (seen (O.state out.old) (O.state out.new)) (seen (E.state err.old) (E.state err.new)) result }
    ensures quiet { HasEnded result → err.new ≡ err.old }
    ensures texts_stay { HasSameTexts (D.state desk.old) (D.state desk.new) }
{
    answer(alloc, words, desk, out, err)
}
