//! The command `replay`: it reads a circuit, its signals and a witness, and replays the witness's trace.

ghost use Rattle.std.specs.Prelude.{◌≡◌, ◌<◌, ◌≤◌, ◌^◌, IfOk, IfErr, OnOk, length, true, false};
ghost use Rattle.run_io.specs.Desk.{HasSameTexts};
ghost use Rattle.aig_model.specs.Replays.{Shows};
ghost use Rattle.aig_eval.specs.Replay.{HasShape};
ghost use Rattle.wit_text.specs.WitnessText.{SpellsWitness};
ghost use Rattle.cover_run.specs.Answer.{EarlyCause};
ghost use Rattle.command_words.specs.Commands.{replay_call};
ghost use Rattle.cover_run.specs.Covering.{HasCircuit, HasSignals};
ghost use Rattle.cover_run.specs.Files.{files_of, IsAllRead, HasRead};
ghost use Rattle.cover_run.specs.Replaying.{HasWitness, IsReplayOutput, replay_line};
ghost use Rattle.cover_run.specs.Seen.{seen};
ghost use Rattle.cover_run.specs.Steps.{WitnessCause, MisfitCause};
ghost use Rattle.command_words.specs.Stops.{is_of_devices};
ghost use Rattle.command_words.specs.Words.{Replay as ReplayMeaning};

use crate::output::Output;
use crate::part::read_part;
use crate::subject::read_subject;
use aig_eval::{ReplayFault, replay};
use aig_model::{Circuit, Signals};
use command_words::{File, Misfit, Refusal, Replay, Stop};
use ketch_base::OutOfMemory;
use run_io::Desk;
use std::alloc::Global;
use text_words::lines_at_most_bytes;
use wit_text::{WitFault, Witness, read_witness};

/// A witness that a text spells has the shape of the circuit, and not too many rows to be replayed.
fn fits_circuit(bytes: &[u8], circuit: &Circuit, witness: &Witness)
    requires short { length bytes.now ≤ 67108864 }
    requires spells { SpellsWitness (length circuit.now.latches) (length circuit.now.inputs) bytes.now witness.now }
    ensures shape { HasShape circuit.now witness.now.trace }
    ensures few { length witness.now.trace.rows.rows < 2 ^ 32 }
{
    lines_at_most_bytes(bytes);
}

fn witness_of(alloc: Global, bytes: &[u8], circuit: &Circuit) -> Result<Witness, Stop>
    requires { length bytes.now ≤ 67108864 }
    ensures witness { IfOk result (SpellsWitness (length circuit.now.latches) (length circuit.now.inputs) bytes.now) }
    ensures shape { IfOk result (λ witness. HasShape circuit.now witness.trace) }
    ensures few { IfOk result (λ witness. length witness.trace.rows.rows < 2 ^ 32) }
    ensures cause { IfErr result (WitnessCause circuit.now bytes.now) }
    ensures read { IfErr result (λ stop. is_of_devices stop ≡ false) }
{
    let witness = spelled_witness(alloc, bytes, circuit)?;
    fits_circuit(bytes, circuit, &witness);
    Ok(witness)
}

fn spelled_witness(alloc: Global, bytes: &[u8], circuit: &Circuit) -> Result<Witness, Stop>
    requires { length bytes.now ≤ 67108864 }
    ensures witness { IfOk result (SpellsWitness (length circuit.now.latches) (length circuit.now.inputs) bytes.now) }
    ensures cause { IfErr result (WitnessCause circuit.now bytes.now) }
    ensures read { IfErr result (λ stop. is_of_devices stop ≡ false) }
{
    circuit.is_well_formed();
    let latches = circuit.latches().len() as u32;
    let inputs = circuit.inputs().len() as u32;
    match read_witness(alloc, bytes, latches, inputs) {
        Ok(witness) => Ok(witness),
        Err(WitFault::At { at, kind }) => Err(Stop::Refused(Refusal::Witness { at, kind })),
        Err(WitFault::OutOfMemory) => Err(Stop::OutOfMemory),
    }
}

/// The circuit, the signals and the witness of a command. The bytes of each file go once they are read.
fn read_all<D: Desk>(
    alloc: Global,
    desk: &mut D,
    call: &Replay<'_>,
) -> Result<(Circuit, Signals, Witness), Stop>
    ensures text { HasSameTexts (D.state desk.old) (D.state desk.new) }
    ensures same { IfOk result (λ all. all.1.circuit ≡ all.0) }
    ensures shape { IfOk result (λ all. HasShape all.0 all.2.trace) }
    ensures few { IfOk result (λ all. length all.2.trace.rows.rows < 2 ^ 32) }
    ensures circuit { IfOk result (λ all. HasCircuit (replay_call call.now).subject (seen (D.state desk.old) (D.state desk.new)) all.0) }
    ensures signals { IfOk result (λ all. HasSignals (replay_call call.now).subject (seen (D.state desk.old) (D.state desk.new)) all.0 all.1.lits) }
    ensures witness { IfOk result (λ all. HasWitness (replay_call call.now) (seen (D.state desk.old) (D.state desk.new)) all.0 all.2) }
    ensures cause { IfErr result (EarlyCause (ReplayMeaning (replay_call call.now)) (seen (D.state desk.old) (D.state desk.new))) }
    ensures read { OnOk result (IsAllRead (files_of (ReplayMeaning (replay_call call.now))) (seen (D.state desk.old) (D.state desk.new))) }
    ensures left { IfErr result (HasRead (files_of (ReplayMeaning (replay_call call.now))) (seen (D.state desk.old) (D.state desk.new))) }
{
    let (circuit, signals) = read_subject(alloc, desk, &call.subject)?;
    let bytes = read_part(alloc, desk, File::Witness, call.witness)?;
    let witness = witness_of(alloc, &bytes, &circuit)?;
    Ok((circuit, signals, witness))
}

fn judge(alloc: Global, circuit: &Circuit, signals: &Signals, witness: &Witness) -> Result<(), Stop>
    requires same { signals.now.circuit ≡ circuit.now }
    requires shape { HasShape circuit.now witness.now.trace }
    requires few { length witness.now.trace.rows.rows < 2 ^ 32 }
    ensures shows { OnOk result (Shows circuit.now signals.now.lits witness.now.trace witness.now.property) }
    ensures cause { IfErr result (MisfitCause circuit.now signals.now.lits witness.now) }
    ensures read { IfErr result (λ stop. is_of_devices stop ≡ false) }
{
    let misfit = match replay(alloc, circuit, signals, &witness.trace) {
        Ok(goal) if goal == witness.property => return Ok(()),
        Ok(_) => Misfit::Property,
        Err(ReplayFault::NotReset { latch }) => Misfit::NotReset { latch },
        Err(ReplayFault::Constraint { step }) => Misfit::Constraint { step },
        Err(ReplayFault::OutOfMemory) => return Err(Stop::OutOfMemory),
        Err(ReplayFault::Shape) => unreachable!(),
    };
    Err(Stop::Refused(Refusal::Trace(misfit)))
}

/// The goal that a witness shows, and its last step.
fn shown(alloc: Global, witness: &Witness) -> Result<Output, OutOfMemory>
    requires { 0 < length witness.now.trace.rows.rows }
    ensures bytes { IfOk result (λ output. output.bytes.items ≡ replay_line witness.now) }
    ensures settled { IfOk result (λ output. output.settled ≡ true) }
{
    let step = witness.trace.rows.len() - 1;
    let line = format!(in alloc; "goal {} at step {}\n", witness.property, step)?;
    Ok(Output {
        bytes: line.into_bytes(),
        settled: true,
    })
}

/// What a replay command writes. Nothing is written yet.
pub(crate) fn replayed<D: Desk>(
    alloc: Global,
    desk: &mut D,
    call: &Replay<'_>,
) -> Result<Output, Stop>
    ensures text { HasSameTexts (D.state desk.old) (D.state desk.new) }
    ensures output { IfOk result (λ output.
        IsReplayOutput (replay_call call.now) (seen (D.state desk.old) (D.state desk.new)) output.bytes.items output.settled) }
    ensures cause { IfErr result (EarlyCause (ReplayMeaning (replay_call call.now)) (seen (D.state desk.old) (D.state desk.new))) }
    ensures read { OnOk result (IsAllRead (files_of (ReplayMeaning (replay_call call.now))) (seen (D.state desk.old) (D.state desk.new))) }
    ensures left { IfErr result (HasRead (files_of (ReplayMeaning (replay_call call.now))) (seen (D.state desk.old) (D.state desk.new))) }
{
    let (circuit, signals, witness) = read_all(alloc, desk, call)?;
    judge(alloc, &circuit, &signals, &witness)?;
    let output = shown(alloc, &witness)?;
    Ok(output)
}
