//! The queries that ran out of lemmas.

ghost use Rattle.std.specs.Prelude.{◌≡◌, ◌↔◌, ◌+◌, ◌<◌, ◌^◌, length, slice_get, Some, IfOk, IsTrue, MatchOption, MatchResult};
ghost use Rattle.report_text.specs.declared.report.Block.{Block};
ghost use Rattle.report_check.specs.Conditions.{IsFaultOf, MeetsAll};
ghost use Rattle.report_check.specs.Known.{ComeInOrder, HaveStates};
ghost use Rattle.report_check.specs.Order.{IsFirstKind};
ghost use Rattle.report_check.specs.Queries.{ComesBefore, IsQuestion, IsSpent, IsSpentQuery, SpentMeets, item_of, section_of};
ghost use Rattle.report_check.specs.Sizes.{HasRoom};
ghost use Rattle.report_check.specs.declared.fault.CheckKind.{CheckKind};

use crate::evidence::is_spent;
use crate::fault::{CheckFault, CheckKind, Part};
use crate::questions::{are_settled, formula_of, is_question};
use aig_model::{Circuit, Signals};
use ketch_base::OutOfMemory;
use report_text::{Block, BlockName, Report};
use std::alloc::Global;

fn section_of(name: &BlockName) -> u32
    ensures { result ≡ section_of name.now }
{
    match name {
        BlockName::Sweep { .. } => 0,
        BlockName::Hop { .. } => 1,
        BlockName::Kept { .. } => 2,
        BlockName::Excludes { .. } => 3,
    }
}

fn item_of(name: &BlockName) -> u32
    ensures { result ≡ item_of name.now }
{
    match name {
        BlockName::Sweep { .. } | BlockName::Kept { .. } => 0,
        BlockName::Hop { batch, .. } => *batch,
        BlockName::Excludes { goal, .. } => *goal,
    }
}

/// Whether one query's place in a report is before another's.
pub(crate) fn comes_before(left: &BlockName, right: &BlockName) -> bool
    ensures { IsTrue result ↔ ComesBefore left.now right.now }
{
    let (first, second) = (section_of(left), section_of(right));
    first < second || (first == second && item_of(left) < item_of(right))
}

/// Whether the query at a place stands behind the one before it, and so behind all.
fn is_in_order(blocks: &[Block], place: usize) -> bool
    requires inside { place < length blocks.now }
    requires ordered { ComeInOrder blocks.now place }
    ensures { IsTrue result ↔ ComeInOrder blocks.now (place + 1) }
{
    place == 0 || comes_before(&blocks[place - 1].name, &blocks[place].name)
}

fn is_spent_query(
    circuit: &Circuit,
    signals: &Signals,
    report: &Report,
    place: usize,
    block: &Block,
) -> bool
    requires block { slice_get report.now.spents place ≡ Some block.now }
    requires ordered { ComeInOrder report.now.spents place }
    ensures { IsTrue result ↔ IsSpentQuery circuit.now signals.now.lits report.now place block.now }
{
    is_question(circuit, signals, report, &block.name)
        && are_settled(report, block.blocked.as_slice())
        && is_in_order(report.spents.as_slice(), place)
}

/// Whether the query's proof spends the lemmas that the options give.
fn has_spent(
    alloc: Global,
    circuit: &Circuit,
    signals: &Signals,
    report: &Report,
    block: &Block,
) -> Result<bool, OutOfMemory>
    requires signals { signals.now.circuit ≡ circuit.now }
    requires room { HasRoom report.now.options circuit.now }
    requires states { HaveStates circuit.now report.now }
    requires question { IsQuestion circuit.now signals.now.lits report.now block.now.name }
    ensures { IfOk result (λ yes. IsTrue yes ↔ IsSpent circuit.now signals.now.lits report.now block.now) }
{
    let formula = formula_of(alloc, circuit, signals, report, block)?;
    let spent = is_spent(alloc, &formula, report.options.lemmas, &block.proof)?;
    Ok(spent)
}

/// The first condition of a query that fails.
fn spent_fault(
    alloc: Global,
    circuit: &Circuit,
    signals: &Signals,
    report: &Report,
    place: usize,
    block: &Block,
) -> Result<Option<CheckKind>, OutOfMemory>
    requires signals { signals.now.circuit ≡ circuit.now }
    requires room { HasRoom report.now.options circuit.now }
    requires states { HaveStates circuit.now report.now }
    requires block { slice_get report.now.spents place ≡ Some block.now }
    requires ordered { ComeInOrder report.now.spents place }
    ensures { IfOk result (λ fault. MatchOption fault
        ((kind : CheckKind) → SpentMeets circuit.now signals.now.lits report.now place block.now kind)
        (IsFirstKind (SpentMeets circuit.now signals.now.lits report.now place block.now))) }
{
    if !is_spent_query(circuit, signals, report, place, block) {
        return Ok(Some(CheckKind::Query));
    }
    if !has_spent(alloc, circuit, signals, report, block)? {
        return Ok(Some(CheckKind::Proof));
    }
    Ok(None)
}

pub(crate) fn check_spents(
    alloc: Global,
    circuit: &Circuit,
    signals: &Signals,
    report: &Report,
) -> Result<(), CheckFault>
    requires signals { signals.now.circuit ≡ circuit.now }
    requires room { HasRoom report.now.options circuit.now }
    requires states { HaveStates circuit.now report.now }
    requires few { length report.now.spents < 2 ^ 32 }
    ensures { MatchResult result (λ _. MeetsAll circuit.now signals.now.lits report.now Part.Spent) (IsFaultOf circuit.now signals.now.lits report.now Part.Spent) }
{
    for (place, block) in report.spents.as_slice().iter().enumerate() {
        if let Some(kind) = spent_fault(alloc, circuit, signals, report, place, block)? {
            return Err(CheckFault::At {
                part: Part::Spent,
                at: place as u32,
                kind,
            });
        }
    }
    Ok(())
}
