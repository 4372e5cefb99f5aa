//! A run of the engines that there are, one after another.

ghost use Rattle.std.specs.Prelude.{◌≡◌, ◌≢◌, ◌≤◌, ◌+◌, true, None, All, AllPairs, IfOk};
ghost use Rattle.report_text.specs.Form.{HasForm};
ghost use Rattle.run_report.specs.Ends.{AreTold, IsSearchTold, inv_of, proves};
ghost use Rattle.run_report.specs.Lines.{AreShort};
ghost use Rattle.run_report.specs.Posts.{IsFinding, IsHistory, entries_of, posts_of};
ghost use Rattle.run_report.specs.Ranges.{AreRunnable};
ghost use Rattle.run_report.specs.Report.{Tells};
ghost use Rattle.run_report.specs.Run.{goals_of};
ghost use Rattle.run_report.specs.Scope.{whole};
ghost use Rattle.unroll.specs.Frames.{vars_before};

use crate::batches::run_batches;
use crate::composing::compose;
use crate::ends::{Ends, SearchBlocks};
use crate::findings::{add_findings, add_found, marks, visited};
use crate::posts::{Findings, post_all};
use crate::proving::{Proving, prove};
use crate::searches::{Search, search_blocks};
use aig_model::{Circuit, Signals};
use ketch_base::OutOfMemory;
use report_text::Report;
use sim_walk::{Options, zero_walk};
use std::alloc::Global;
use sweep_search::{Swept, sweep};

/// What the walk and the sweep found, and the queries of the sweep.
#[derive(Drop)]
struct Searched {
    findings: Findings,
    sweep: SearchBlocks,
}

/// What all engines found, and how they ended.
#[derive(Drop)]
struct RunEnd {
    findings: Findings,
    ends: Ends,
}

/// The walk from reset with all inputs 0, and then the sweep for what it didn't visit.
fn search(
    alloc: Global,
    circuit: &Circuit,
    signals: &Signals,
    options: &Options,
) -> Result<Searched, OutOfMemory>
    requires signals { signals.now.circuit ≡ circuit.now }
    requires room { vars_before circuit.now (options.now.depth + 1) ≤ 4000000 }
    requires options { AreRunnable options.now }
    ensures found { IfOk result (λ s. All (IsFinding circuit.now signals.now.lits options.now None) s.findings) }
    ensures once { IfOk result (λ s. AllPairs (λ m n. m ≢ n) (goals_of s.findings)) }
    ensures told { IfOk result (λ s. IsSearchTold circuit.now signals.now.lits options.now (entries_of (posts_of s.findings)) s.sweep) }
{
    let visits = zero_walk(alloc, circuit, signals, options)?;
    let mut findings = visited(alloc, circuit, signals, options, &visits)?;
    let known = marks(alloc, signals, &findings)?;
    let Swept {
        found,
        refuted,
        spent,
        ..
    } = sweep(
        alloc,
        circuit,
        signals,
        &known,
        options.depth,
        options.lemmas,
        options.proofs,
    )?;
    add_found(&mut findings, found)?;
    let blocks = search_blocks(alloc, Search::Sweep, refuted, spent)?;
    Ok(Searched {
        findings,
        sweep: blocks,
    })
}

/// The searches, then the prover for what they didn't find, and then the batches of random walks for what is left.
fn run_jobs(
    alloc: Global,
    circuit: &Circuit,
    signals: &Signals,
    options: &Options,
) -> Result<RunEnd, OutOfMemory>
    requires signals { signals.now.circuit ≡ circuit.now }
    requires room { vars_before circuit.now (options.now.depth + 1) ≤ 4000000 }
    requires hop_room { vars_before circuit.now (options.now.hop + 1) ≤ 4000000 }
    requires options { AreRunnable options.now }
    ensures history { IfOk result (λ r. IsHistory circuit.now signals.now.lits options.now (inv_of r.ends.prover) (posts_of r.findings)) }
    ensures told { IfOk result (λ r. AreTold circuit.now signals.now.lits options.now (entries_of (posts_of r.findings)) r.ends) }
    ensures short { IfOk result (λ r. AreShort (posts_of r.findings) r.ends.prover) }
    ensures proves { IfOk result (λ r. proves r.ends.prover ≡ true) }
{
    circuit.is_well_formed();
    signals.is_well_formed();
    let Searched {
        mut findings,
        sweep,
    } = search(alloc, circuit, signals, options)?;
    let known = marks(alloc, signals, &findings)?;
    let Proving {
        findings: proved,
        end,
    } = prove(alloc, circuit, signals, options, &known)?;
    add_findings(&mut findings, proved)?;
    let batches = run_batches(alloc, circuit, signals, options, &mut findings)?;
    Ok(RunEnd {
        findings,
        ends: Ends {
            sweep,
            batches,
            prover: end,
        },
    })
}

/// The report of a run on one thread.
pub fn run_engines(
    alloc: Global,
    circuit: &Circuit,
    signals: &Signals,
    options: &Options,
) -> Result<Report, OutOfMemory>
    requires signals { signals.now.circuit ≡ circuit.now }
    requires room { vars_before circuit.now (options.now.depth + 1) ≤ 4000000 }
    requires hop_room { vars_before circuit.now (options.now.hop + 1) ≤ 4000000 }
    requires options { AreRunnable options.now }
    ensures form { IfOk result HasForm }
    ensures tells { IfOk result (Tells circuit.now signals.now.lits options.now whole) }
{
    let RunEnd { findings, ends } = run_jobs(alloc, circuit, signals, options)?;
    let posts = post_all(alloc, findings)?;
    let report = compose(alloc, circuit, signals, options, posts, ends)?;
    Ok(report)
}
