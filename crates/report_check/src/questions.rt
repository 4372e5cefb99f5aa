//! Which queries may stand in a report, and their formulas.

ghost use Rattle.std.specs.Prelude.{◌≡◌, ◌↔◌, ◌<◌, ◌≤◌, ◌+◌, All, Some, length, slice_get, IfOk, IsTrue, MatchOption};
ghost use Rattle.unroll.specs.Queries.{search_formula};
ghost use Rattle.unroll.specs.Starts.{IsStart};
ghost use Rattle.unroll.specs.declared.start.Start.TheVariants.{State};
ghost use Rattle.unroll.specs.Frames.{vars_before};
ghost use Rattle.report_check.specs.Blocks.{IsSettled};
ghost use Rattle.report_check.specs.Known.{HaveStates};
ghost use Rattle.report_check.specs.Queries.{HasSeed, IsFormulaOf, IsQuestion, IsSearch};
ghost use Rattle.report_check.specs.Sizes.{HasRoom};

use crate::clauses::are_latch_clauses;
use crate::sizes::is_open;
use aig_model::{Circuit, Goals, LatchClauses, Signals};
use cnf_base::Formula;
use ketch_base::OutOfMemory;
use report_text::{Block, BlockName, Report, SeedLine};
use std::alloc::Global;
use unroll::{FrameFault, Start, excludes_formula, kept_formula, search_formula};

/// The seed of a batch.
fn seed_of(report: &Report, batch: u32) -> Option<&SeedLine>
    ensures { MatchOption result (¬ HasSeed report.now batch) (λ seed. slice_get report.now.seeds batch ≡ Some (Some seed.now)) }
{
    match report.seeds.as_slice().get(batch as usize) {
        Some(Some(seed)) => Some(seed),
        Some(None) | None => None,
    }
}

/// Whether the goal has a block that doesn't leave it open.
fn is_settled(report: &Report, goal: u32) -> bool
    ensures { IsTrue result ↔ IsSettled report.now goal }
{
    match report.goals.as_slice().get(goal as usize) {
        Some(block) => !is_open(block),
        None => false,
    }
}

pub(crate) fn are_settled(report: &Report, goals: &[u32]) -> bool
    ensures { IsTrue result ↔ All (IsSettled report.now) goals.now }
{
    goals.iter().all(|goal| is_settled(report, *goal))
}

/// Whether the options have the search's step, and the report its start.
pub(crate) fn is_search(report: &Report, name: &BlockName) -> bool
    ensures { IsTrue result ↔ IsSearch report.now name.now }
{
    match name {
        BlockName::Sweep { step } => *step <= report.options.depth,
        BlockName::Hop { batch, step } => {
            *step <= report.options.hop && seed_of(report, *batch).is_some()
        }
        BlockName::Kept { .. } | BlockName::Excludes { .. } => false,
    }
}

/// Whether it's such a search, or a question of clauses over the latches.
pub(crate) fn is_question(
    circuit: &Circuit,
    signals: &Signals,
    report: &Report,
    name: &BlockName,
) -> bool
    ensures { IsTrue result ↔ IsQuestion circuit.now signals.now.lits report.now name.now }
{
    match name {
        BlockName::Sweep { .. } | BlockName::Hop { .. } => is_search(report, name),
        BlockName::Kept { place, clauses } => {
            (*place as usize) < clauses.len() && are_latch_clauses(circuit, clauses.as_slice())
        }
        BlockName::Excludes { goal, clauses } => {
            *goal < signals.goals() && are_latch_clauses(circuit, clauses.as_slice())
        }
    }
}

/// The formula of a search whose frames aren't too large.
fn search(
    alloc: Global,
    circuit: &Circuit,
    signals: &Signals,
    start: &Start,
    step: u32,
    blocked: &Goals,
) -> Result<Formula, OutOfMemory>
    requires signals { signals.now.circuit ≡ circuit.now }
    requires start { IsStart circuit.now start.now }
    requires room { vars_before circuit.now (step + 1) ≤ 4000000 }
    ensures { IfOk result (λ formula. formula ≡ search_formula circuit.now signals.now.lits start.now step blocked.now) }
{
    match search_formula(alloc, circuit, signals, start, step, blocked) {
        Ok(formula) => Ok(formula),
        Err(FrameFault::TooLarge) => unreachable!(),
        Err(FrameFault::OutOfMemory) => Err(OutOfMemory),
    }
}

/// The formula of a search from the seed of a batch.
fn hop_formula(
    alloc: Global,
    circuit: &Circuit,
    signals: &Signals,
    seed: &SeedLine,
    step: u32,
    blocked: &Goals,
) -> Result<Formula, OutOfMemory>
    requires signals { signals.now.circuit ≡ circuit.now }
    requires state { length seed.now.state ≡ length circuit.now.latches }
    requires room { vars_before circuit.now (step + 1) ≤ 4000000 }
    ensures { IfOk result (λ formula. formula ≡ search_formula circuit.now signals.now.lits (State seed.now.state) step blocked.now) }
{
    let state = seed.state.part(alloc, 0, seed.state.len())?;
    let formula = search(alloc, circuit, signals, &Start::State(state), step, blocked)?;
    Ok(formula)
}

/// The formula that a query names.
pub(crate) fn formula_of(
    alloc: Global,
    circuit: &Circuit,
    signals: &Signals,
    report: &Report,
    block: &Block,
) -> Result<Formula, OutOfMemory>
    requires signals { signals.now.circuit ≡ circuit.now }
    requires room { HasRoom report.now.options circuit.now }
    requires states { HaveStates circuit.now report.now }
    requires question { IsQuestion circuit.now signals.now.lits report.now block.now.name }
    ensures { IfOk result (IsFormulaOf circuit.now signals.now.lits report.now block.now.blocked block.now.name) }
{
    match &block.name {
        BlockName::Sweep { step } => search(
            alloc,
            circuit,
            signals,
            &Start::Reset,
            *step,
            &block.blocked,
        ),
        BlockName::Hop { batch, step } => {
            let Some(seed) = seed_of(report, *batch) else {
                unreachable!()
            };
            hop_formula(alloc, circuit, signals, seed, *step, &block.blocked)
        }
        BlockName::Kept { place, clauses } => kept_formula(alloc, circuit, clauses, *place),
        BlockName::Excludes { goal, clauses } => {
            excludes_formula(alloc, circuit, signals, clauses, *goal)
        }
    }
}
