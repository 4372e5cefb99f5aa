//! What the engines find, as findings.

ghost use Rattle.std.specs.Prelude.{◌≡◌, ◌↔◌, ◌<◌, ◌^◌, ◌++◌, ℕ, All, map, length, get_or, true, false, Contains, IfOk, OnOk};
ghost use Rattle.std.specs.List.{AllZip};
ghost use Rattle.sim_walk.specs.Zero.{AreZeroVisits};
ghost use Rattle.sweep_search.specs.Sweep.{IsMarked};
ghost use Rattle.run_report.specs.Run.{IsZeroFinding, goals_of, sweep_finding};

use crate::posts::{Basis, Finding, Findings};
use aig_model::{Bits, Circuit, Signals};
use board_core::Source;
use ketch_base::OutOfMemory;
use sim_walk::{Options, Visits, zero_trace};
use std::alloc::Global;
use sweep_search::FoundGoals;

/// The visits of the zero walk, each with the trace that leads to it.
pub(crate) fn visited(
    alloc: Global,
    circuit: &Circuit,
    signals: &Signals,
    options: &Options,
    visits: &Visits,
) -> Result<Findings, OutOfMemory>
    requires signals { signals.now.circuit ≡ circuit.now }
    requires visits { AreZeroVisits circuit.now signals.now.lits options.now.length visits.now }
    ensures { IfOk result (AllZip (IsZeroFinding circuit.now) visits.now) }
{
    let mut findings = Findings::new(alloc);
    for visit in visits.as_slice() {
        let witness = zero_trace(alloc, circuit, signals, options, visit.step)?;
        findings.push(Finding {
            goal: visit.goal,
            source: Source::Zero,
            basis: Basis::Witness(witness),
        })?;
    }
    Ok(findings)
}

/// A value for each goal, true where something settles it.
pub(crate) fn marks(
    alloc: Global,
    signals: &Signals,
    findings: &Findings,
) -> Result<Bits, OutOfMemory>
    requires { All (λ goal. goal < 2 ^ length signals.now.lits) (goals_of findings.now) }
    ensures size { IfOk result (λ marks. length marks ≡ 2 ^ length signals.now.lits) }
    ensures marks { IfOk result (λ marks. (goal : ℕ) → IsMarked marks goal ↔ Contains (goals_of findings.now) goal) }
{
    let mut marks = Bits::all_false(alloc, signals.goals() as usize)?;
    for finding in findings.as_slice() {
        marks.set(finding.goal as usize, true);
    }
    Ok(marks)
}

/// What the sweep finds comes after what was found before it.
pub(crate) fn add_found(findings: &mut Findings, found: FoundGoals) -> Result<(), OutOfMemory>
    ensures { OnOk result (findings.new ≡ findings.old ++ map sweep_finding found) }
{
    for new in found.into_vec() {
        findings.push(Finding {
            goal: new.goal,
            source: Source::Sweep,
            basis: Basis::Witness(new.trace),
        })?;
    }
    Ok(())
}

/// Those of a later engine come last.
pub(crate) fn add_findings(findings: &mut Findings, more: Findings) -> Result<(), OutOfMemory>
    ensures { OnOk result (findings.new ≡ findings.old ++ more) }
{
    for new in more.into_vec() {
        findings.push(new)?;
    }
    Ok(())
}
