//! The command `cover`: it reads, computes and says what to write, and only then is anything written.

ghost use Rattle.std.specs.Prelude.{◌≡◌, false, IfOk, IfErr, OnOk, nat_eq};
ghost use Rattle.run_io.specs.Desk.{HasSameTexts};
ghost use Rattle.cover_run.specs.Answer.{EarlyCause};
ghost use Rattle.command_words.specs.Commands.{cover_call};
ghost use Rattle.cover_run.specs.Covering.{HasRoom, IsCoverOutput};
ghost use Rattle.cover_run.specs.Files.{files_of, IsAllRead, HasRead};
ghost use Rattle.run_report.specs.Report.{IsReport};
ghost use Rattle.run_report.specs.Scope.{whole};
ghost use Rattle.cover_run.specs.Seen.{seen};
ghost use Rattle.cover_run.specs.Steps.{RoomCause};
ghost use Rattle.command_words.specs.Stops.{is_of_devices};
ghost use Rattle.command_words.specs.Settings.{AreOnScales};
ghost use Rattle.command_words.specs.Words.{Cover as CoverMeaning};

use crate::output::Output;
use crate::subject::read_subject;
use aig_model::{Circuit, Signals};
use command_words::{Cover, Measure, Stop};
use ketch_base::OutOfMemory;
use report_text::text_of;
use run_io::Desk;
use run_report::run_engines;
use sim_walk::Options;
use std::alloc::Global;

/// Whether the searches and walks that are asked for are within their limits.
fn has_room(circuit: &Circuit, options: &Options) -> Result<(), Stop>
    ensures room { OnOk result (HasRoom options.now circuit.now) }
    ensures cause { IfErr result (RoomCause options.now circuit.now) }
    ensures read { IfErr result (λ stop. is_of_devices stop ≡ false) }
{
    let steps = u64::from(options.depth.max(options.hop)) + 1;
    if steps.saturating_mul(u64::from(circuit.top()) + 1) > 4_000_000 {
        return Err(Stop::TooLarge(Measure::Frames));
    }
    let width = (circuit.inputs().len() as u64).saturating_add(1);
    if width.saturating_mul(options.length.into()) > 2_000_000 {
        return Err(Stop::TooLarge(Measure::Walk));
    }
    Ok(())
}

/// The report of a circuit and its signals.
fn report_of(
    alloc: Global,
    circuit: &Circuit,
    signals: &Signals,
    options: &Options,
) -> Result<Output, OutOfMemory>
    requires signals { signals.now.circuit ≡ circuit.now }
    requires room { HasRoom options.now circuit.now }
    requires options { AreOnScales options.now }
    ensures report { IfOk result (λ output. (report : IsReport circuit.now signals.now.lits options.now whole output.bytes.items) × (output.settled ≡ nat_eq report.report.unsettled 0)) }
{
    let report = run_engines(alloc, circuit, signals, options)?;
    let bytes = text_of(alloc, &report)?;
    Ok(Output {
        bytes,
        settled: report.unsettled == 0,
    })
}

/// What a cover command writes. Nothing is written yet.
pub(crate) fn cover<D: Desk>(alloc: Global, desk: &mut D, call: &Cover<'_>) -> Result<Output, Stop>
    requires { AreOnScales call.now.options }
    ensures text { HasSameTexts (D.state desk.old) (D.state desk.new) }
    ensures output { IfOk result (λ output.
        IsCoverOutput (cover_call call.now) (seen (D.state desk.old) (D.state desk.new)) output.bytes.items output.settled) }
    ensures cause { IfErr result (EarlyCause (CoverMeaning (cover_call call.now)) (seen (D.state desk.old) (D.state desk.new))) }
    ensures read { OnOk result (IsAllRead (files_of (CoverMeaning (cover_call call.now))) (seen (D.state desk.old) (D.state desk.new))) }
    ensures left { IfErr result (HasRead (files_of (CoverMeaning (cover_call call.now))) (seen (D.state desk.old) (D.state desk.new))) }
{
    let (circuit, signals) = read_subject(alloc, desk, &call.subject)?;
    has_room(&circuit, &call.options)?;
    let output = report_of(alloc, &circuit, &signals, &call.options)?;
    Ok(output)
}
