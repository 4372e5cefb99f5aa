//! The seeds of the batches: where their rows lead.

ghost use Rattle.std.specs.Prelude.{◌≡◌, ◌↔◌, ◌<◌, Bool, List, length, IfOk, IfSome, IsTrue, MatchOption, MatchResult};
ghost use Rattle.aig_model.specs.Meaning.{Agrees, IsReset};
ghost use Rattle.report_text.specs.Form.{FitsSeed, FitsSeedLine, IsCounted};
ghost use Rattle.report_check.specs.Conditions.{IsFaultOf, MeetsAll};
ghost use Rattle.report_check.specs.Seeds.{IsSeed, LeadsTo};
ghost use Rattle.report_check.specs.Sizes.{IsSized};

use crate::fault::{CheckFault, CheckKind, Part};
use aig_eval::{is_legal, next_state, step_values};
use aig_model::{Bits, Circuit, Reset, Rows, Signals};
use ketch_base::OutOfMemory;
use report_text::{Report, SeedLine};
use std::alloc::Global;

/// The state to which the rows lead, or None where a constraint is false at one of them.
fn state_after(
    alloc: Global,
    circuit: &Circuit,
    start: &Bits,
    rows: &Rows,
) -> Result<Option<Bits>, OutOfMemory>
    requires start { length start.now ≡ length circuit.now.latches }
    requires width { rows.now.width ≡ length circuit.now.inputs }
    ensures { IfOk result (λ end. MatchOption end
        ((state : List Bool) → ¬ LeadsTo circuit.now start.now rows.now.rows state)
        (LeadsTo circuit.now start.now rows.now.rows)) }
{
    circuit.is_well_formed();
    let mut state = start.part(alloc, 0, start.len())?;
    for step in 0..rows.len() {
        let row = rows.get(alloc, step)?;
        let values = step_values(alloc, circuit, &state, &row)?;
        if !is_legal(circuit, &values) {
            return Ok(None);
        }
        state = next_state(alloc, circuit, &values)?;
    }
    Ok(Some(state))
}

fn agrees(reset: Reset, value: bool) -> bool
    ensures { IsTrue result ↔ Agrees reset value }
{
    match reset {
        Reset::Zero => !value,
        Reset::One => value,
        Reset::Free => true,
    }
}

fn is_reset(circuit: &Circuit, start: &Bits) -> bool
    requires { length start.now ≡ length circuit.now.latches }
    ensures { IsTrue result ↔ IsReset circuit.now start.now }
{
    let latches = circuit.latches();
    for place in 0..latches.len() {
        if !agrees(latches.get(place).reset, start.get(place)) {
            return false;
        }
    }
    true
}

fn are_same(left: &Bits, right: &Bits) -> bool
    requires { length left.now ≡ length right.now }
    ensures { IsTrue result ↔ (left.now ≡ right.now) }
{
    for place in 0..left.len() {
        if left.get(place) != right.get(place) {
            return false;
        }
    }
    true
}

fn is_seed(alloc: Global, circuit: &Circuit, line: &SeedLine) -> Result<bool, OutOfMemory>
    requires form { FitsSeedLine (length circuit.now.inputs) (length circuit.now.latches) line.now }
    ensures { IfOk result (λ yes. IsTrue yes ↔ IsSeed circuit.now line.now) }
{
    circuit.is_well_formed();
    if !is_reset(circuit, &line.start) {
        return Ok(false);
    }
    match state_after(alloc, circuit, &line.start, &line.rows)? {
        Some(state) => Ok(are_same(&state, &line.state)),
        None => Ok(false),
    }
}

/// Whether a batch's line, if it has a seed, tells one.
fn is_line(alloc: Global, circuit: &Circuit, line: &Option<SeedLine>) -> Result<bool, OutOfMemory>
    requires form { FitsSeed (length circuit.now.inputs) (length circuit.now.latches) line.now }
    ensures { IfOk result (λ yes. IsTrue yes ↔ IfSome line.now (IsSeed circuit.now)) }
{
    match line {
        Some(line) => is_seed(alloc, circuit, line),
        None => Ok(true),
    }
}

pub(crate) fn check_seeds(
    alloc: Global,
    circuit: &Circuit,
    signals: &Signals,
    report: &Report,
) -> Result<(), CheckFault>
    requires sizes { IsSized circuit.now signals.now.lits report.now }
    requires form { IsCounted (FitsSeed report.now.inputs report.now.latches) report.now.seeds }
    ensures { MatchResult result (λ _. MeetsAll circuit.now signals.now.lits report.now Part.Seed) (IsFaultOf circuit.now signals.now.lits report.now Part.Seed) }
{
    if report.seeds.len() != report.options.batches as usize {
        return Err(CheckFault::At {
            part: Part::Seed,
            at: 0,
            kind: CheckKind::Count,
        });
    }
    for (batch, line) in report.seeds.as_slice().iter().enumerate() {
        if !is_line(alloc, circuit, line)? {
            return Err(CheckFault::At {
                part: Part::Seed,
                at: batch as u32,
                kind: CheckKind::Trace,
            });
        }
    }
    Ok(())
}
