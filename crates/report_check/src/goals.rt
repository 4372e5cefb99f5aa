//! The blocks of the goals.

ghost use Rattle.std.specs.Prelude.{◌≡◌, ◌↔◌, ◌<◌, ◌^◌, ℕ, List, length, get_or, false, IfOk, IsTrue, MatchOption, MatchResult};
ghost use Rattle.aig_model.specs.declared.parts.Parts.{Parts};
ghost use Rattle.board_core.specs.History.{first_entry};
ghost use Rattle.board_core.specs.declared.entry.Entry.{Entry};
ghost use Rattle.report_text.specs.declared.report.GoalBlock.{GoalBlock};
ghost use Rattle.report_text.specs.declared.report.GoalBlock.TheVariants.{Open, Reached, Unreachable};
ghost use Rattle.report_text.specs.declared.report.Inv.{Inv};
ghost use Rattle.report_check.specs.Bounds.{strength_of};
ghost use Rattle.report_check.specs.Conditions.{IsFaultOf, MeetsAll};
ghost use Rattle.report_check.specs.Goals.{GoalMeets, IsExcludedBy, IsPosted};
ghost use Rattle.report_check.specs.Known.{AreBounds, AreFirsts, strength_under};
ghost use Rattle.report_check.specs.Order.{IsFirstKind};
ghost use Rattle.report_check.specs.declared.fault.CheckKind.{CheckKind};

use crate::bounds::{Bounds, bounds_of};
use crate::evidence::{excludes, shows};
use crate::fault::{CheckFault, CheckKind, Part};
use crate::firsts::first_entries;
use aig_model::{Circuit, Kind, Signals, Trace};
use board_core::Entry;
use ketch_base::OutOfMemory;
use lrat_text::Proof;
use report_text::{GoalBlock, HopBound, HopBounds, Report};
use std::alloc::Global;

/// Whether the entry is there, of this kind and with this number.
fn is_posted(first: Option<Entry>, kind: Kind, number: u64) -> bool
    ensures { IsTrue result ↔ IsPosted first kind number }
{
    match first {
        Some(entry) => entry.kind == kind && entry.number == number,
        None => false,
    }
}

/// The first condition of a reached goal's block that fails.
fn reached_fault(
    alloc: Global,
    circuit: &Circuit,
    signals: &Signals,
    report: &Report,
    goal: u32,
    first: Option<Entry>,
    number: u64,
    witness: &Trace,
) -> Result<Option<CheckKind>, OutOfMemory>
    requires signals { signals.now.circuit ≡ circuit.now }
    requires first { first ≡ first_entry report.now.history goal }
    ensures { IfOk result (λ fault. MatchOption fault
        ((kind : CheckKind) → GoalMeets circuit.now signals.now.lits report.now goal (Reached number witness.now) kind)
        (IsFirstKind (GoalMeets circuit.now signals.now.lits report.now goal (Reached number witness.now)))) }
{
    if !is_posted(first, Kind::Reached, number) {
        return Ok(Some(CheckKind::Verdict));
    }
    if !shows(alloc, circuit, signals, witness, goal)? {
        return Ok(Some(CheckKind::Trace));
    }
    Ok(None)
}

/// Whether the clauses of the block at this place exclude the goal.
fn is_excluded(
    alloc: Global,
    circuit: &Circuit,
    signals: &Signals,
    report: &Report,
    goal: u32,
    place: u32,
    proof: &Proof,
) -> Result<bool, OutOfMemory>
    requires signals { signals.now.circuit ≡ circuit.now }
    requires goal { goal < 2 ^ length signals.now.lits }
    requires place { place < length report.now.invs }
    requires invs { MeetsAll circuit.now signals.now.lits report.now Part.Inv }
    ensures { IfOk result (λ yes. IsTrue yes ↔ IsExcludedBy circuit.now signals.now.lits report.now goal place proof.now) }
{
    let clauses = &report.invs.get(place as usize).clauses;
    let excluded = excludes(alloc, circuit, signals, clauses, goal, proof)?;
    Ok(excluded)
}

/// The first condition of an unreachable goal's block that fails.
fn unreachable_fault(
    alloc: Global,
    circuit: &Circuit,
    signals: &Signals,
    report: &Report,
    goal: u32,
    first: Option<Entry>,
    number: u64,
    inv: u32,
    proof: &Proof,
) -> Result<Option<CheckKind>, OutOfMemory>
    requires signals { signals.now.circuit ≡ circuit.now }
    requires first { first ≡ first_entry report.now.history goal }
    requires goal { goal < 2 ^ length signals.now.lits }
    requires invs { MeetsAll circuit.now signals.now.lits report.now Part.Inv }
    ensures { IfOk result (λ fault. MatchOption fault
        ((kind : CheckKind) → GoalMeets circuit.now signals.now.lits report.now goal (Unreachable number inv proof.now) kind)
        (IsFirstKind (GoalMeets circuit.now signals.now.lits report.now goal (Unreachable number inv proof.now)))) }
{
    if !is_posted(first, Kind::Unreachable, number) {
        return Ok(Some(CheckKind::Verdict));
    }
    if inv as usize >= report.invs.len() {
        return Ok(Some(CheckKind::Inv));
    }
    if !is_excluded(alloc, circuit, signals, report, goal, inv, proof)? {
        return Ok(Some(CheckKind::Excludes));
    }
    Ok(None)
}

fn are_same_hops(left: &[HopBound], right: &[HopBound]) -> bool
    ensures { IsTrue result ↔ (left.now ≡ right.now) }
{
    if left.len() != right.len() {
        return false;
    }
    for place in 0..left.len() {
        if left[place] != right[place] {
            return false;
        }
    }
    true
}

/// The strength of the proofs for a goal.
fn strength_of(bounds: &Bounds, goal: u32) -> Option<u32>
    requires { goal < length bounds.now.cut }
    ensures { result ≡ strength_under bounds.now.strength (get_or bounds.now.cut goal false) }
{
    if bounds.cut.get(goal as usize) {
        None
    } else {
        bounds.strength
    }
}

/// Whether the bounds of an open goal are those that the report leaves.
fn has_bounds(
    bounds: &Bounds,
    goal: u32,
    depth: Option<u32>,
    hops: &HopBounds,
    strength: Option<u32>,
) -> bool
    requires { goal < length bounds.now.cut }
    ensures { IsTrue result ↔ ((depth ≡ bounds.now.depth) × (hops.now ≡ bounds.now.hops) × (strength ≡ strength_under bounds.now.strength (get_or bounds.now.cut goal false))) }
{
    depth == bounds.depth
        && are_same_hops(hops.as_slice(), bounds.hops.as_slice())
        && strength == strength_of(bounds, goal)
}

/// The first condition of an open goal's block that fails.
fn open_fault(
    report: &Report,
    bounds: &Bounds,
    goal: u32,
    first: Option<Entry>,
    depth: Option<u32>,
    hops: &HopBounds,
    strength: Option<u32>,
) -> Option<CheckKind>
    requires first { first ≡ first_entry report.now.history goal }
    requires goal { goal < length bounds.now.cut }
    requires bounds { AreBounds report.now (length bounds.now.cut) bounds.now }
    ensures { (c : Parts) (sig : List ℕ) → MatchOption result
        ((kind : CheckKind) → GoalMeets c sig report.now goal (Open depth hops.now strength) kind)
        (IsFirstKind (GoalMeets c sig report.now goal (Open depth hops.now strength))) }
{
    if first.is_some() {
        return Some(CheckKind::Verdict);
    }
    if !has_bounds(bounds, goal, depth, hops, strength) {
        return Some(CheckKind::Bound);
    }
    None
}

/// The first condition of a goal's block that fails.
fn goal_fault(
    alloc: Global,
    circuit: &Circuit,
    signals: &Signals,
    report: &Report,
    bounds: &Bounds,
    goal: u32,
    first: Option<Entry>,
    block: &GoalBlock,
) -> Result<Option<CheckKind>, OutOfMemory>
    requires signals { signals.now.circuit ≡ circuit.now }
    requires first { first ≡ first_entry report.now.history goal }
    requires goal { goal < 2 ^ length signals.now.lits }
    requires bounds { AreBounds report.now (2 ^ length signals.now.lits) bounds.now }
    requires invs { MeetsAll circuit.now signals.now.lits report.now Part.Inv }
    ensures { IfOk result (λ fault. MatchOption fault
        ((kind : CheckKind) → GoalMeets circuit.now signals.now.lits report.now goal block.now kind)
        (IsFirstKind (GoalMeets circuit.now signals.now.lits report.now goal block.now))) }
{
    match block {
        GoalBlock::Reached { number, witness } => {
            reached_fault(
                alloc, circuit, signals, report, goal, first, *number, witness,
            )
        }
        GoalBlock::Unreachable { number, inv, proof } => unreachable_fault(
            alloc, circuit, signals, report, goal, first, *number, *inv, proof,
        ),
        GoalBlock::Open {
            depth,
            hops,
            strength,
        } => Ok(open_fault(report, bounds, goal, first, *depth, hops, *strength)),
    }
}

fn check_blocks(
    alloc: Global,
    circuit: &Circuit,
    signals: &Signals,
    report: &Report,
    bounds: &Bounds,
    firsts: &[Option<Entry>],
) -> Result<(), CheckFault>
    requires signals { signals.now.circuit ≡ circuit.now }
    requires count { length report.now.goals ≡ 2 ^ length signals.now.lits }
    requires few { length report.now.goals < 2 ^ 32 }
    requires bounds { AreBounds report.now (2 ^ length signals.now.lits) bounds.now }
    requires firsts { AreFirsts report.now.history (2 ^ length signals.now.lits) firsts.now }
    requires invs { MeetsAll circuit.now signals.now.lits report.now Part.Inv }
    ensures { MatchResult result (λ _. MeetsAll circuit.now signals.now.lits report.now Part.Goal) (IsFaultOf circuit.now signals.now.lits report.now Part.Goal) }
{
    for (place, block) in report.goals.as_slice().iter().enumerate() {
        let (goal, first) = (place as u32, firsts[place]);
        if let Some(kind) = goal_fault(
            alloc, circuit, signals, report, bounds, goal, first, block,
        )? {
            return Err(CheckFault::At {
                part: Part::Goal,
                at: goal,
                kind,
            });
        }
    }
    Ok(())
}

pub(crate) fn check_goals(
    alloc: Global,
    circuit: &Circuit,
    signals: &Signals,
    report: &Report,
) -> Result<(), CheckFault>
    requires signals { signals.now.circuit ≡ circuit.now }
    requires few { length report.now.goals < 2 ^ 32 }
    requires seeds { length report.now.seeds < 2 ^ 32 }
    requires invs { MeetsAll circuit.now signals.now.lits report.now Part.Inv }
    ensures { MatchResult result (λ _. MeetsAll circuit.now signals.now.lits report.now Part.Goal) (IsFaultOf circuit.now signals.now.lits report.now Part.Goal) }
{
    let goals = signals.goals();
    if report.goals.len() != goals as usize {
        return Err(CheckFault::At {
            part: Part::Goal,
            at: 0,
            kind: CheckKind::Count,
        });
    }
    let bounds = bounds_of(alloc, report, goals)?;
    let firsts = first_entries(alloc, goals, report.history.as_slice())?;
    check_blocks(alloc, circuit, signals, report, &bounds, &firsts)
}
