//! The command `goals`: it reads a circuit and its signals, and writes the circuit whose bad literals are the goals.

ghost use Rattle.std.specs.Prelude.{◌≡◌, IfOk, IfErr, OnOk, true, false};
ghost use Rattle.run_io.specs.Desk.{HasSameTexts};
ghost use Rattle.aig_ascii.specs.CircuitText.{IsTextOf};
ghost use Rattle.aig_ascii.specs.RoundTrip.{ReadsBack};
ghost use Rattle.goal_circuit.specs.GoalCircuit.{goal_parts};
ghost use Rattle.cover_run.specs.Answer.{EarlyCause};
ghost use Rattle.command_words.specs.Commands.{subject_named};
ghost use Rattle.cover_run.specs.Exporting.{IsTooManyGoals, IsGoalsOutput};
ghost use Rattle.cover_run.specs.Files.{files_of, IsAllRead, HasRead};
ghost use Rattle.cover_run.specs.Seen.{seen};
ghost use Rattle.cover_run.specs.Steps.{GoalsCause};
ghost use Rattle.command_words.specs.Stops.{is_of_devices};
ghost use Rattle.command_words.specs.Words.{Goals as GoalsMeaning};

use crate::output::Output;
use crate::subject::read_subject;
use aig_ascii::write_aag;
use aig_model::{Circuit, Signals};
use command_words::{Measure, Stop, Subject};
use goal_circuit::{GoalFault, goal_circuit};
use ketch_base::OutOfMemory;
use run_io::Desk;
use std::alloc::Global;

fn goals_of(alloc: Global, circuit: &Circuit, signals: &Signals) -> Result<Circuit, Stop>
    requires { signals.now.circuit ≡ circuit.now }
    ensures circuit { IfOk result (λ goals. goals ≡ goal_parts circuit.now signals.now.lits) }
    ensures room { OnOk result (¬ IsTooManyGoals circuit.now signals.now.lits) }
    ensures cause { IfErr result (GoalsCause circuit.now signals.now.lits) }
    ensures read { IfErr result (λ stop. is_of_devices stop ≡ false) }
{
    match goal_circuit(alloc, circuit, signals) {
        Ok(goals) => Ok(goals),
        Err(GoalFault::TooLarge) => Err(Stop::TooLarge(Measure::Goals)),
        Err(GoalFault::OutOfMemory) => Err(Stop::OutOfMemory),
    }
}

fn text_of(alloc: Global, circuit: &Circuit) -> Result<Output, OutOfMemory>
    ensures text { IfOk result (λ output. IsTextOf circuit.now output.bytes.items) }
    ensures reads_back { IfOk result (λ output. ReadsBack circuit.now output.bytes.items) }
    ensures settled { IfOk result (λ output. output.settled ≡ true) }
{
    let bytes = write_aag(alloc, circuit)?;
    Ok(Output {
        bytes,
        settled: true,
    })
}

/// What a goals command writes. Nothing is written yet.
pub(crate) fn export<D: Desk>(
    alloc: Global,
    desk: &mut D,
    subject: &Subject<'_>,
) -> Result<Output, Stop>
    ensures text { HasSameTexts (D.state desk.old) (D.state desk.new) }
    ensures output { IfOk result (λ output.
        IsGoalsOutput (subject_named subject.now) (seen (D.state desk.old) (D.state desk.new)) output.bytes.items output.settled) }
    ensures cause { IfErr result (EarlyCause (GoalsMeaning (subject_named subject.now)) (seen (D.state desk.old) (D.state desk.new))) }
    ensures read { OnOk result (IsAllRead (files_of (GoalsMeaning (subject_named subject.now))) (seen (D.state desk.old) (D.state desk.new))) }
    ensures left { IfErr result (HasRead (files_of (GoalsMeaning (subject_named subject.now))) (seen (D.state desk.old) (D.state desk.new))) }
{
    let (circuit, signals) = read_subject(alloc, desk, subject)?;
    let goals = goals_of(alloc, &circuit, &signals)?;
    let output = text_of(alloc, &goals)?;
    Ok(output)
}
