//! Batches of random walks from reset: what they visit, as findings.

ghost use Rattle.std.specs.Prelude.{◌≡◌, ◌<◌, ◌≤◌, ◌+◌, ◌^◌, All, length, None, IfOk, OnOk};
ghost use Rattle.run_report.specs.Batches.{AddsBatch, AddsBatches, AddsVisits, AreBatchVisits, AreKnown};
ghost use Rattle.run_report.specs.Run.{goals_of};
ghost use Rattle.run_report.specs.VisitsAdded.{AddsVisit};
ghost use Rattle.sim_batch.specs.Batch.{lanes_of};
ghost use Rattle.sim_batch.specs.SeedOf.{IsBatchVisit};
ghost use Rattle.unroll.specs.Frames.{vars_before};

use crate::ends::{BatchEnd, BatchEnds};
use crate::findings::marks;
use crate::hops::hop_end;
use crate::posts::{Basis, Finding, Findings};
use aig_model::{Bits, Circuit, Signals};
use board_core::Source;
use ketch_base::OutOfMemory;
use sim_batch::visit_trace;
use sim_lanes::lane_batch;
use sim_walk::{Options, Visit, Visits};
use std::alloc::Global;

/// A visit of a goal that isn't settled, with the trace of its lane.
fn add_visit(
    alloc: Global,
    circuit: &Circuit,
    signals: &Signals,
    options: &Options,
    batch: u32,
    known: &Bits,
    visit: &Visit,
    findings: &mut Findings,
) -> Result<(), OutOfMemory>
    requires signals { signals.now.circuit ≡ circuit.now }
    requires visit { IsBatchVisit circuit.now signals.now.lits (lanes_of circuit.now options.now.seed batch None)
        options.now.length options.now.stall visit.now }
    requires inside { visit.now.goal < length known.now }
    ensures { OnOk result (AddsVisit circuit.now signals.now.lits batch known.now visit.now findings.old findings.new) }
{
    if known.get(visit.goal as usize) {
        return Ok(());
    }
    let witness = visit_trace(alloc, circuit, signals, options, None, batch, visit)?;
    findings.push(Finding {
        goal: visit.goal,
        source: Source::Walk(batch),
        basis: Basis::Witness(witness),
    })?;
    Ok(())
}

/// The visits of a batch, where nothing settled their goals before.
fn add_visits(
    alloc: Global,
    circuit: &Circuit,
    signals: &Signals,
    options: &Options,
    batch: u32,
    known: &Bits,
    visits: &Visits,
    findings: &mut Findings,
) -> Result<(), OutOfMemory>
    requires signals { signals.now.circuit ≡ circuit.now }
    requires batch { batch < options.now.batches }
    requires visits { AreBatchVisits circuit.now signals.now.lits options.now batch visits.now }
    requires marks { AreKnown signals.now.lits findings.old known.now }
    ensures { OnOk result (AddsVisits circuit.now signals.now.lits options.now batch findings.old findings.new) }
{
    for visit in visits.as_slice() {
        add_visit(
            alloc, circuit, signals, options, batch, known, visit, findings,
        )?;
    }
    Ok(())
}

/// What batch `batch` from reset visits, and then what is within the options' steps from the state of its seed, where
/// nothing settled the goals before.
pub(crate) fn run_batch(
    alloc: Global,
    circuit: &Circuit,
    signals: &Signals,
    options: &Options,
    batch: u32,
    findings: &mut Findings,
) -> Result<BatchEnd, OutOfMemory>
    requires signals { signals.now.circuit ≡ circuit.now }
    requires batch { batch < options.now.batches }
    requires length { 0 < options.now.length }
    requires room { vars_before circuit.now (options.now.hop + 1) ≤ 4000000 }
    requires some { 1 ≤ options.now.lemmas }
    requires few { options.now.lemmas ≤ 2 ^ 60 }
    requires goals { All (λ goal. goal < 2 ^ length signals.now.lits) (goals_of findings.old) }
    ensures { IfOk result (AddsBatch circuit.now signals.now.lits options.now batch findings.old findings.new) }
{
    let walked = lane_batch(alloc, circuit, signals, options, None, batch)?;
    let known = marks(alloc, signals, findings)?;
    add_visits(
        alloc,
        circuit,
        signals,
        options,
        batch,
        &known,
        &walked.visits,
        findings,
    )?;
    let end = hop_end(
        alloc,
        circuit,
        signals,
        options,
        batch,
        walked.seed,
        findings,
    )?;
    Ok(end)
}

/// All batches from reset, one after another, each with the hop from its seed.
pub(crate) fn run_batches(
    alloc: Global,
    circuit: &Circuit,
    signals: &Signals,
    options: &Options,
    findings: &mut Findings,
) -> Result<BatchEnds, OutOfMemory>
    requires signals { signals.now.circuit ≡ circuit.now }
    requires length { 0 < options.now.length }
    requires room { vars_before circuit.now (options.now.hop + 1) ≤ 4000000 }
    requires some { 1 ≤ options.now.lemmas }
    requires few { options.now.lemmas ≤ 2 ^ 60 }
    requires goals { All (λ goal. goal < 2 ^ length signals.now.lits) (goals_of findings.old) }
    ensures { IfOk result (AddsBatches circuit.now signals.now.lits options.now findings.old findings.new) }
{
    let mut ends = BatchEnds::new(alloc);
    for batch in 0..options.batches {
        let end = run_batch(alloc, circuit, signals, options, batch, findings)?;
        ends.push(end)?;
    }
    Ok(ends)
}
