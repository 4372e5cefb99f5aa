//! The blocks of clauses.

ghost use Rattle.std.specs.Prelude.{◌↔◌, IfOk, IsTrue, MatchOption, MatchResult};
ghost use Rattle.report_text.specs.Form.{FitsInv, IsCounted};
ghost use Rattle.report_check.specs.Conditions.{IsFaultOf, MeetsAll};
ghost use Rattle.report_check.specs.Invariants.{HoldAtReset, InvMeets};
ghost use Rattle.report_check.specs.Order.{IsFirstKind};
ghost use Rattle.report_check.specs.declared.fault.CheckKind.{CheckKind};

use crate::clauses::{are_latch_clauses, hold_at_reset};
use crate::evidence::are_kept;
use crate::fault::{CheckFault, CheckKind, Part};
use aig_model::{Circuit, Signals};
use ketch_base::OutOfMemory;
use report_text::{Inv, Report};
use std::alloc::Global;

fn starts(alloc: Global, circuit: &Circuit, inv: &Inv) -> Result<bool, OutOfMemory>
    ensures { IfOk result (λ yes. IsTrue yes ↔ HoldAtReset circuit.now inv.now.clauses) }
{
    let clauses = inv.clauses.as_slice();
    if !are_latch_clauses(circuit, clauses) {
        return Ok(false);
    }
    let hold = hold_at_reset(alloc, circuit, clauses)?;
    Ok(hold)
}

/// The first condition of a block that fails.
fn inv_fault(alloc: Global, circuit: &Circuit, inv: &Inv) -> Result<Option<CheckKind>, OutOfMemory>
    requires { FitsInv inv.now }
    ensures { IfOk result (λ fault. MatchOption fault ((kind : CheckKind) → InvMeets circuit.now inv.now kind) (IsFirstKind (InvMeets circuit.now inv.now))) }
{
    if !starts(alloc, circuit, inv)? {
        return Ok(Some(CheckKind::Start));
    }
    if !are_kept(alloc, circuit, inv)? {
        return Ok(Some(CheckKind::Kept));
    }
    Ok(None)
}

pub(crate) fn check_invs(
    alloc: Global,
    circuit: &Circuit,
    signals: &Signals,
    report: &Report,
) -> Result<(), CheckFault>
    requires { IsCounted FitsInv report.now.invs }
    ensures { MatchResult result (λ _. MeetsAll circuit.now signals.now.lits report.now Part.Inv) (IsFaultOf circuit.now signals.now.lits report.now Part.Inv) }
{
    for (place, inv) in report.invs.as_slice().iter().enumerate() {
        if let Some(kind) = inv_fault(alloc, circuit, inv)? {
            return Err(CheckFault::At {
                part: Part::Inv,
                at: place as u32,
                kind,
            });
        }
    }
    Ok(())
}
