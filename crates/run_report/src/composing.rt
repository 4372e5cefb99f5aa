//! Makes the report of a run from its history and from how its jobs end.

ghost use Rattle.std.specs.Prelude.{◌≡◌, ◌^◌, length, count_by, IfOk};
ghost use Rattle.aig_model.specs.SignalList.{IsSignals};
ghost use Rattle.aig_model.specs.WellFormed.{IsCircuit};
ghost use Rattle.report_text.specs.Form.{FitsOptions, HasForm};
ghost use Rattle.run_report.specs.Ended.{all_refutes, all_spents, invs_from, seeds_of};
ghost use Rattle.run_report.specs.Ends.{AreTold, inv_of, scope_of};
ghost use Rattle.run_report.specs.Lines.{AreShort};
ghost use Rattle.run_report.specs.Posts.{IsHistory, entries_of};
ghost use Rattle.run_report.specs.Ranges.{AreInRange};
ghost use Rattle.run_report.specs.Report.{Tells, is_reached, is_unreachable};
ghost use Rattle.run_report.specs.Summed.{Holds};

use crate::blocks::{reached_among, settle, unreachable_among};
use crate::bounds::bounds_of;
use crate::ends::Ends;
use crate::literals::{ends_literals_fit, posts_literals_fit};
use crate::open_goals::open_blocks;
use crate::posts::{Posts, entries_of};
use crate::queries::{add_batches, add_optional, add_prover, invs_from};
use aig_model::{Circuit, Signals};
use board_core::Entries;
use ketch_base::OutOfMemory;
use report_text::{Blocks, GoalBlock, GoalBlocks, Invs, Report, SeedLines};
use sim_walk::Options;
use std::alloc::Global;

/// What the ends leave beside the bounds.
#[derive(Drop)]
struct Sections {
    seeds: SeedLines,
    invs: Invs,
    spents: Blocks,
    refutes: Blocks,
}

fn sections_of(alloc: Global, ends: Ends, unreachable: usize) -> Result<Sections, OutOfMemory>
    ensures seeds { IfOk result (λ sections. sections.seeds ≡ seeds_of ends.batches) }
    ensures invs { IfOk result (λ sections. sections.invs ≡ invs_from unreachable (inv_of ends.prover)) }
    ensures spents { IfOk result (λ sections. sections.spents ≡ all_spents ends) }
    ensures refutes { IfOk result (λ sections. sections.refutes ≡ all_refutes ends) }
{
    let Ends {
        sweep,
        batches,
        prover,
    } = ends;
    let mut refutes = sweep.refuted;
    let mut spents = Blocks::new(alloc);
    add_optional(&mut spents, sweep.spent)?;
    let seeds = add_batches(alloc, &mut spents, &mut refutes, batches)?;
    let inv = add_prover(&mut spents, prover)?;
    let invs = invs_from(alloc, unreachable, inv)?;
    Ok(Sections {
        seeds,
        invs,
        spents,
        refutes,
    })
}

/// The report around its parts.
fn report_of(
    circuit: &Circuit,
    signals: &Signals,
    options: Options,
    history: Entries,
    blocks: Vec<GoalBlock>,
    unreachable: usize,
    sections: Sections,
) -> Report
    requires signals { signals.now.circuit ≡ circuit.now }
    requires each_goal { length blocks.items ≡ 2 ^ length signals.now.lits }
    requires unreachable { unreachable ≡ count_by is_unreachable blocks.items }

    ensures holds { Holds circuit.now signals.now.lits options history blocks.items sections.seeds sections.invs sections.spents sections.refutes result }

    // What the types of the circuit, the signals and the options keep.
    ensures circuit { IsCircuit circuit.now }
    ensures signals { IsSignals circuit.now signals.now.lits }
    ensures options { FitsOptions options }
{
    circuit.is_well_formed();
    signals.is_well_formed();
    let reached = reached_among(blocks.as_slice());
    let goals = blocks.len();
    Report {
        inputs: circuit.inputs().len() as u32,
        latches: circuit.latches().len() as u32,
        signals: signals.lits().len() as u32,
        options,
        history,
        seeds: sections.seeds,
        invs: sections.invs,
        goals: GoalBlocks::from_vec(blocks),
        spents: sections.spents,
        refutes: sections.refutes,
        reached: reached as u32,
        unreachable: unreachable as u32,
        unsettled: (goals - reached - unreachable) as u32,
    }
}

/// The report of a run: what its history and the ends of its jobs tell.
pub fn compose(
    alloc: Global,
    circuit: &Circuit,
    signals: &Signals,
    options: &Options,
    posts: Posts,
    ends: Ends,
) -> Result<Report, OutOfMemory>
    requires signals { signals.now.circuit ≡ circuit.now }
    requires options { AreInRange options.now }
    requires history { IsHistory circuit.now signals.now.lits options.now (inv_of ends.prover) posts }
    requires ends { AreTold circuit.now signals.now.lits options.now (entries_of posts) ends }
    requires short { AreShort posts ends.prover }
    ensures history { IfOk result (λ report. report.history ≡ entries_of posts) }
    ensures form { IfOk result HasForm }
    ensures tells { IfOk result (Tells circuit.now signals.now.lits options.now (scope_of ends)) }
{
    posts_literals_fit(&posts);
    ends_literals_fit(&ends);
    let goals = signals.goals();
    let bounds = bounds_of(alloc, options, goals, &ends)?;
    let opens = open_blocks(alloc, &bounds, goals)?;
    let history = entries_of(alloc, &posts)?;
    let blocks = settle(opens, posts);
    let unreachable = unreachable_among(blocks.as_slice());
    let sections = sections_of(alloc, ends, unreachable)?;
    Ok(report_of(
        circuit,
        signals,
        *options,
        history,
        blocks,
        unreachable,
        sections,
    ))
}
