//! Hops: bounded searches from the seeds of batches, as findings.

ghost use Rattle.std.specs.Prelude.{◌≡◌, ◌<◌, ◌≤◌, ◌+◌, ◌^◌, ◌++◌, All, map, length, Some, IfOk, OnOk};
ghost use Rattle.run_report.specs.Batches.{AddsHop, AddsHopEnd, hop_finding, line_of};
ghost use Rattle.run_report.specs.Run.{goals_of};
ghost use Rattle.goal_facts.specs.Seeds.{IsSeedOfBatch};
ghost use Rattle.sweep_search.specs.declared.swept.FoundGoal.{FoundGoal};
ghost use Rattle.unroll.specs.Frames.{vars_before};

use crate::ends::{BatchEnd, SearchBlocks};
use crate::findings::marks;
use crate::posts::{Basis, Finding, Findings};
use crate::searches::{Search, search_blocks};
use aig_model::{Circuit, Rows, Signals};
use board_core::Source;
use ketch_base::OutOfMemory;
use report_text::{Blocks, SeedLine};
use sim_batch::Seed;
use sim_walk::Options;
use std::alloc::Global;
use sweep_search::{FoundGoals, Swept, hop_from};

/// The seed as a report tells it.
fn seed_line(alloc: Global, seed: &Seed) -> Result<SeedLine, OutOfMemory>
    ensures { IfOk result (λ line. line ≡ line_of seed.now) }
{
    seed.is_well_formed();
    let none = Rows::new(alloc, seed.rows().width());
    let way = seed.extend(alloc, &none)?;
    let state = seed.state().part(alloc, 0, seed.state().len())?;
    Ok(SeedLine {
        start: way.start,
        rows: way.rows,
        state,
    })
}

/// What a hop finds comes after what was found before it, each goal with the rows that lead to the seed before its own.
fn add_found(
    alloc: Global,
    batch: u32,
    seed: &Seed,
    found: FoundGoals,
    findings: &mut Findings,
) -> Result<(), OutOfMemory>
    requires { All (λ (f : FoundGoal). f.trace.rows.width ≡ length seed.now.circuit.inputs) found }
    ensures { OnOk result (findings.new ≡ findings.old ++ map (hop_finding batch seed.now) found) }
{
    for new in found.into_vec() {
        let witness = seed.extend(alloc, &new.trace.rows)?;
        findings.push(Finding {
            goal: new.goal,
            source: Source::Hop(batch),
            basis: Basis::Witness(witness),
        })?;
    }
    Ok(())
}

/// The hop from a batch's seed, for the goals that nothing settled.
fn add_hop(
    alloc: Global,
    circuit: &Circuit,
    signals: &Signals,
    options: &Options,
    batch: u32,
    seed: &Seed,
    findings: &mut Findings,
) -> Result<SearchBlocks, OutOfMemory>
    requires signals { signals.now.circuit ≡ circuit.now }
    requires seed { IsSeedOfBatch circuit.now signals.now.lits options.now batch (Some seed.now) }
    requires batch { batch < options.now.batches }
    requires room { vars_before circuit.now (options.now.hop + 1) ≤ 4000000 }
    requires some { 1 ≤ options.now.lemmas }
    requires few { options.now.lemmas ≤ 2 ^ 60 }
    requires goals { All (λ goal. goal < 2 ^ length signals.now.lits) (goals_of findings.old) }
    ensures { IfOk result (AddsHop circuit.now signals.now.lits options.now batch seed.now findings.old findings.new) }
{
    seed.is_well_formed();
    let known = marks(alloc, signals, findings)?;
    let Swept {
        found,
        refuted,
        spent,
        ..
    } = hop_from(
        alloc,
        circuit,
        signals,
        seed.state(),
        &known,
        options.hop,
        options.lemmas,
        options.proofs,
    )?;
    add_found(alloc, batch, seed, found, findings)?;
    let blocks = search_blocks(alloc, Search::Hop(batch), refuted, spent)?;
    Ok(blocks)
}

/// How a batch ends that has this seed, or none.
pub(crate) fn hop_end(
    alloc: Global,
    circuit: &Circuit,
    signals: &Signals,
    options: &Options,
    batch: u32,
    seed: Option<Seed>,
    findings: &mut Findings,
) -> Result<BatchEnd, OutOfMemory>
    requires signals { signals.now.circuit ≡ circuit.now }
    requires seed { IsSeedOfBatch circuit.now signals.now.lits options.now batch seed }
    requires batch { batch < options.now.batches }
    requires room { vars_before circuit.now (options.now.hop + 1) ≤ 4000000 }
    requires some { 1 ≤ options.now.lemmas }
    requires few { options.now.lemmas ≤ 2 ^ 60 }
    requires goals { All (λ goal. goal < 2 ^ length signals.now.lits) (goals_of findings.old) }
    ensures { IfOk result (AddsHopEnd circuit.now signals.now.lits options.now batch seed findings.old findings.new) }
{
    match seed {
        None => Ok(BatchEnd {
            seed: None,
            hop: SearchBlocks {
                refuted: Blocks::new(alloc),
                spent: None,
            },
        }),
        Some(seed) => {
            let hop = add_hop(alloc, circuit, signals, options, batch, &seed, findings)?;
            let line = seed_line(alloc, &seed)?;
            Ok(BatchEnd {
                seed: Some(line),
                hop,
            })
        }
    }
}
