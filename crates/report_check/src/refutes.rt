//! The queries that have no model.

ghost use Rattle.std.specs.Prelude.{◌≡◌, ◌↔◌, ◌<◌, ◌+◌, ◌^◌, ◌*◌, ℕ, length, slice_get, true, Some, IfErr, IfNone, IfOk, IsTrue, MatchOption, MatchResult};
ghost use Rattle.report_text.specs.declared.report.Block.{Block};
ghost use Rattle.report_text.specs.declared.report.Report.{Report};
ghost use Rattle.report_check.specs.Blocks.{HasOpen};
ghost use Rattle.report_check.specs.Conditions.{IsFaultOf, MeetsAll};
ghost use Rattle.report_check.specs.Known.{AreBounds, HaveStates};
ghost use Rattle.report_check.specs.Order.{IsFirstKind};
ghost use Rattle.report_check.specs.Queries.{IsSearch};
ghost use Rattle.report_check.specs.Refutes.{AreAllTold, IsRefuteQuery, IsRefuted, IsWithinBound, RefuteMeets};
ghost use Rattle.report_check.specs.Sizes.{AreInRange, HasRoom};
ghost use Rattle.report_check.specs.Walks.{AreWalked};
ghost use Rattle.report_check.specs.declared.fault.CheckKind.{CheckKind};

use crate::bounds::{Bounds, bounds_of};
use crate::evidence::is_accepted;
use crate::fault::{CheckFault, CheckKind, Part};
use crate::questions::{are_settled, formula_of, is_search};
use crate::sizes::is_open;
use crate::walked::Walked;
use aig_model::{Circuit, Signals};
use ketch_base::OutOfMemory;
use report_text::{Block, BlockName, HopBound, Report};
use std::alloc::Global;

fn has_open(report: &Report) -> bool
    ensures { IsTrue result ↔ HasOpen report.now }
{
    report.goals.as_slice().iter().any(|block| is_open(block))
}

/// Whether the step is one that was searched whole.
fn is_within_bound(bounds: &Bounds, name: &BlockName) -> bool
    ensures { (r : Report) (goals : ℕ) → AreBounds r goals bounds.now → IsTrue result ↔ IsWithinBound r name.now }
{
    match name {
        BlockName::Sweep { step } => match bounds.depth {
            Some(depth) => *step <= depth,
            None => false,
        },
        BlockName::Hop { batch, step } => match bounds.hops.as_slice().get(*batch as usize) {
            Some(HopBound::To(hop)) => *step <= *hop,
            Some(HopBound::Nothing | HopBound::NoSeed) | None => false,
        },
        BlockName::Kept { .. } | BlockName::Excludes { .. } => false,
    }
}

/// Whether the query may stand at its place.
fn is_refute_query(
    report: &Report,
    bounds: &Bounds,
    any_open: bool,
    walked: &Walked,
    place: usize,
    block: &Block,
) -> bool
    requires block { slice_get report.now.refutes place ≡ Some block.now }
    requires bounds { (goals : ℕ) × AreBounds report.now goals bounds.now }
    requires any_open { IsTrue any_open ↔ HasOpen report.now }
    requires walked { AreWalked report.now place walked.now }
    ensures { IsTrue result ↔ IsRefuteQuery report.now place block.now }
{
    if !report.options.proofs {
        return false;
    }
    if !is_search(report, &block.name) {
        return false;
    }
    if !are_settled(report, block.blocked.as_slice()) {
        return false;
    }
    if !walked.is_next(&block.name) {
        return false;
    }
    !any_open || is_within_bound(bounds, &block.name)
}

/// Whether the proof that the query has no model is accepted.
fn is_refuted(
    alloc: Global,
    circuit: &Circuit,
    signals: &Signals,
    report: &Report,
    block: &Block,
) -> Result<bool, OutOfMemory>
    requires signals { signals.now.circuit ≡ circuit.now }
    requires room { HasRoom report.now.options circuit.now }
    requires states { HaveStates circuit.now report.now }
    requires search { IsSearch report.now block.now.name }
    ensures { IfOk result (λ yes. IsTrue yes ↔ IsRefuted circuit.now signals.now.lits report.now block.now) }
{
    let formula = formula_of(alloc, circuit, signals, report, block)?;
    let accepted = is_accepted(alloc, &formula, &block.proof)?;
    Ok(accepted)
}

/// The first condition of a query that fails. Where none does, the walk goes on behind it.
fn refute_fault(
    alloc: Global,
    circuit: &Circuit,
    signals: &Signals,
    report: &Report,
    bounds: &Bounds,
    any_open: bool,
    walked: &mut Walked,
    place: usize,
) -> Result<Option<CheckKind>, OutOfMemory>
    requires signals { signals.now.circuit ≡ circuit.now }
    requires ranges { AreInRange report.now.options }
    requires room { HasRoom report.now.options circuit.now }
    requires states { HaveStates circuit.now report.now }
    requires place { place < length report.now.refutes }
    requires bounds { (goals : ℕ) × AreBounds report.now goals bounds.now }
    requires any_open { IsTrue any_open ↔ HasOpen report.now }
    requires walked { AreWalked report.now place walked.old }
    ensures fault { IfOk result (λ fault. (b : Block) → slice_get report.now.refutes place ≡ Some b → MatchOption fault
        ((kind : CheckKind) → RefuteMeets circuit.now signals.now.lits report.now place b kind)
        (IsFirstKind (RefuteMeets circuit.now signals.now.lits report.now place b))) }
    ensures walked { IfOk result (λ fault. IfNone fault (AreWalked report.now (place + 1) walked.new)) }
{
    let block = report.refutes.get(place);
    if !is_refute_query(report, bounds, any_open, walked, place, block) {
        return Ok(Some(CheckKind::Query));
    }
    if !is_refuted(alloc, circuit, signals, report, block)? {
        return Ok(Some(CheckKind::Proof));
    }
    walked.advance(&block.name);
    Ok(None)
}

/// Goes along all queries.
fn walk(
    alloc: Global,
    circuit: &Circuit,
    signals: &Signals,
    report: &Report,
    bounds: &Bounds,
    any_open: bool,
) -> Result<Walked, CheckFault>
    requires signals { signals.now.circuit ≡ circuit.now }
    requires ranges { AreInRange report.now.options }
    requires room { HasRoom report.now.options circuit.now }
    requires states { HaveStates circuit.now report.now }
    requires seeds { length report.now.seeds ≡ report.now.options.batches }
    requires few { length report.now.refutes < 2 ^ 32 }
    requires bounds { (goals : ℕ) × AreBounds report.now goals bounds.now }
    requires any_open { IsTrue any_open ↔ HasOpen report.now }
    ensures meets { IfOk result (λ _. (k : ℕ) (b : Block) → slice_get report.now.refutes k ≡ Some b → (kind : CheckKind) → RefuteMeets circuit.now signals.now.lits report.now k b kind) }
    ensures walked { IfOk result (AreWalked report.now (length report.now.refutes)) }
    ensures fault { IfErr result (IsFaultOf circuit.now signals.now.lits report.now Part.Refute) }
{
    let mut walked = Walked::new(alloc, report.options.batches)?;
    for place in 0..report.refutes.len() {
        if let Some(kind) = refute_fault(
            alloc,
            circuit,
            signals,
            report,
            bounds,
            any_open,
            &mut walked,
            place,
        )? {
            return Err(CheckFault::At {
                part: Part::Refute,
                at: place as u32,
                kind,
            });
        }
    }
    Ok(walked)
}

/// Whether each step that was searched whole has its query, where the options ask for them and a goal is open.
fn are_all_told(report: &Report, bounds: &Bounds, any_open: bool, walked: &Walked) -> bool
    requires bounds { (goals : ℕ) × AreBounds report.now goals bounds.now }
    requires any_open { IsTrue any_open ↔ HasOpen report.now }
    requires walked { AreWalked report.now (length report.now.refutes) walked.now }
    ensures { IsTrue result ↔ (report.now.options.proofs ≡ true → HasOpen report.now → AreAllTold report.now) }
{
    if !report.options.proofs {
        return true;
    }
    if !any_open {
        return true;
    }
    walked.has_all(bounds)
}

pub(crate) fn check_refutes(
    alloc: Global,
    circuit: &Circuit,
    signals: &Signals,
    report: &Report,
) -> Result<(), CheckFault>
    requires signals { signals.now.circuit ≡ circuit.now }
    requires ranges { AreInRange report.now.options }
    requires room { HasRoom report.now.options circuit.now }
    requires states { HaveStates circuit.now report.now }
    requires seeds { length report.now.seeds ≡ report.now.options.batches }
    requires few { length report.now.refutes < 2 ^ 32 }
    ensures { MatchResult result (λ _. MeetsAll circuit.now signals.now.lits report.now Part.Refute) (IsFaultOf circuit.now signals.now.lits report.now Part.Refute) }
{
    let bounds = bounds_of(alloc, report, signals.goals())?;
    let any_open = has_open(report);
    let walked = walk(alloc, circuit, signals, report, &bounds, any_open)?;
    if !are_all_told(report, &bounds, any_open, &walked) {
        return Err(CheckFault::At {
            part: Part::Refute,
            at: report.refutes.len() as u32,
            kind: CheckKind::Missing,
        });
    }
    Ok(())
}
