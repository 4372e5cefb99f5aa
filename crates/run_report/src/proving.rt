//! The prover, which comes after all searches: the greatest invariant among the candidates, and the goals that it excludes.

ghost use Rattle.std.specs.Prelude.{◌≡◌, ◌↔◌, ◌≤◌, ◌<◌, ◌+◌, ◌^◌, ℕ, All, length, IsTrue, IfOk, OnOk};
ghost use Rattle.aig_model.specs.LatchClauses.{IsLatchClause};
ghost use Rattle.inv_prover.specs.Answers.{IsExcluded, IsGrown};
ghost use Rattle.sweep_search.specs.Sweep.{IsMarked};
ghost use Rattle.unroll.specs.Framing.{HasFrames};
ghost use Rattle.unroll.specs.declared.start.Start.TheVariants.{Any};
ghost use Rattle.run_report.specs.Proving.{AreAsked, IsProving, after_answer, excludes_block, kept_block};
ghost use Rattle.run_report.specs.Ranges.{AreRunnable};

use crate::ends::ProverEnd;
use crate::posts::{Basis, Finding, Findings};
use aig_model::{Bits, Circuit, Goals, LatchClause, LatchClauses, Signals};
use board_core::Source;
use inv_prover::{Excluded, Grown, candidates, exclude_framed, greatest, one_step};
use ketch_base::OutOfMemory;
use lrat_text::Proof;
use report_text::{Block, BlockName, Blocks, Inv};
use sim_walk::Options;
use std::alloc::Global;
use unroll::FramedFormula;

/// The goals that the clauses exclude, and the questions that ran out of lemmas.
#[derive(Debug, Drop)]
pub struct Asked {
    pub findings: Findings,
    pub spents: Blocks,
}

/// What the prover finds, and how it ends.
#[derive(Debug, Drop)]
pub struct Proving {
    pub findings: Findings,
    pub end: ProverEnd,
}

fn are_all_marked(known: &Bits) -> bool
    ensures { IsTrue result ↔ ((goal : ℕ) → goal < length known.now → IsMarked known.now goal) }
{
    for goal in 0..known.len() {
        if !known.get(goal) {
            return false;
        }
    }
    true
}

fn copy_clause(alloc: Global, clause: &LatchClause) -> Result<LatchClause, OutOfMemory>
    ensures { IfOk result (λ copy. copy ≡ clause.now) }
{
    let mut copy = LatchClause::new(alloc);
    for lit in clause.as_slice() {
        copy.push(*lit)?;
    }
    Ok(copy)
}

fn copy_clauses(alloc: Global, clauses: &LatchClauses) -> Result<LatchClauses, OutOfMemory>
    ensures { IfOk result (λ copy. copy ≡ clauses.now) }
{
    let mut copy = LatchClauses::new(alloc);
    for clause in clauses.as_slice() {
        copy.push(copy_clause(alloc, clause)?)?;
    }
    Ok(copy)
}

/// The question whether the clauses exclude the goal.
fn excludes_block(
    alloc: Global,
    clauses: &LatchClauses,
    goal: u32,
    proof: Proof,
) -> Result<Block, OutOfMemory>
    ensures { IfOk result (λ block. block ≡ excludes_block goal clauses.now proof) }
{
    let clauses = copy_clauses(alloc, clauses)?;
    Ok(Block {
        name: BlockName::Excludes { goal, clauses },
        blocked: Goals::new(alloc),
        proof,
    })
}

/// The question whether the clause at the place is kept.
fn kept_block(alloc: Global, clauses: LatchClauses, place: u32, proof: Proof) -> Block
    ensures { result ≡ kept_block place clauses proof }
{
    Block {
        name: BlockName::Kept { place, clauses },
        blocked: Goals::new(alloc),
        proof,
    }
}

/// Takes down what the answer says of a goal.
fn take_down(
    alloc: Global,
    clauses: &LatchClauses,
    goal: u32,
    answer: Excluded,
    asked: &mut Asked,
) -> Result<(), OutOfMemory>
    ensures { OnOk result (asked.new ≡ after_answer clauses.now goal answer asked.old) }
{
    match answer {
        Excluded::Yes(proof) => {
            asked.findings.push(Finding {
                goal,
                source: Source::Proved,
                basis: Basis::Proof(proof),
            })?;
            Ok(())
        }
        Excluded::No { .. } => Ok(()),
        Excluded::Spent(proof) => {
            let block = excludes_block(alloc, clauses, goal, proof)?;
            asked.spents.push(block)?;
            Ok(())
        }
    }
}

/// Asks of one goal, unless it is marked.
fn ask_one(
    alloc: Global,
    circuit: &Circuit,
    signals: &Signals,
    framed: &mut FramedFormula,
    clauses: &LatchClauses,
    known: &Bits,
    goal: u32,
    lemmas: u64,
    asked: &mut Asked,
) -> Result<(), OutOfMemory>
    requires frames { HasFrames circuit.now Any 0 framed.old }
    requires signals { signals.now.circuit ≡ circuit.now }
    requires clauses { All (IsLatchClause circuit.now) clauses.now }
    requires few_clauses { length clauses.now < 2 ^ 32 }
    requires size { length known.now ≡ 2 ^ length signals.now.lits }
    requires goal { goal < 2 ^ length signals.now.lits }
    requires some { 1 ≤ lemmas }
    requires few { lemmas ≤ 2 ^ 60 }
    requires asked { AreAsked circuit.now signals.now.lits lemmas clauses.now known.now goal asked.old }
    ensures frames { OnOk result (HasFrames circuit.now Any 0 framed.new) }
    ensures asked { OnOk result (AreAsked circuit.now signals.now.lits lemmas clauses.now known.now (goal + 1) asked.new) }
{
    if known.get(goal as usize) {
        return Ok(());
    }
    let answer = exclude_framed(alloc, circuit, signals, framed, clauses, goal, lemmas)?;
    take_down(alloc, clauses, goal, answer, asked)?;
    Ok(())
}

/// Asks of each goal that isn't marked whether the clauses exclude it.
fn ask_all(
    alloc: Global,
    circuit: &Circuit,
    signals: &Signals,
    clauses: &LatchClauses,
    known: &Bits,
    lemmas: u64,
) -> Result<Asked, OutOfMemory>
    requires signals { signals.now.circuit ≡ circuit.now }
    requires clauses { All (IsLatchClause circuit.now) clauses.now }
    requires few_clauses { length clauses.now < 2 ^ 32 }
    requires size { length known.now ≡ 2 ^ length signals.now.lits }
    requires some { 1 ≤ lemmas }
    requires few { lemmas ≤ 2 ^ 60 }
    ensures { IfOk result (AreAsked circuit.now signals.now.lits lemmas clauses.now known.now (2 ^ length signals.now.lits)) }
{
    let mut asked = Asked {
        findings: Findings::new(alloc),
        spents: Blocks::new(alloc),
    };
    let mut framed = one_step(alloc, circuit)?;
    for goal in 0..signals.goals() {
        ask_one(
            alloc,
            circuit,
            signals,
            &mut framed,
            clauses,
            known,
            goal,
            lemmas,
            &mut asked,
        )?;
    }
    Ok(asked)
}

/// Runs the prover for the goals that aren't marked.
pub(crate) fn prove(
    alloc: Global,
    circuit: &Circuit,
    signals: &Signals,
    options: &Options,
    known: &Bits,
) -> Result<Proving, OutOfMemory>
    requires signals { signals.now.circuit ≡ circuit.now }
    requires size { length known.now ≡ 2 ^ length signals.now.lits }
    requires options { AreRunnable options.now }
    ensures { IfOk result (IsProving circuit.now signals.now.lits options.now known.now) }
{
    if are_all_marked(known) {
        return Ok(Proving {
            findings: Findings::new(alloc),
            end: ProverEnd::AllSettled,
        });
    }
    let tried = candidates(alloc, circuit, signals, options.strength)?;
    match greatest(alloc, circuit, &tried, options.lemmas)? {
        Grown::Whole { clauses, kept } => {
            let Asked { findings, spents } = ask_all(
                alloc,
                circuit,
                signals,
                &clauses,
                known,
                options.lemmas,
            )?;
            Ok(Proving {
                findings,
                end: ProverEnd::Whole {
                    inv: Inv { clauses, kept },
                    spents,
                },
            })
        }
        Grown::Spent {
            clauses,
            place,
            proof,
        } => Ok(Proving {
            findings: Findings::new(alloc),
            end: ProverEnd::Spent(kept_block(alloc, clauses, place, proof)),
        }),
    }
}
