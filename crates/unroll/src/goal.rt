//! The literals of a goal.

ghost use Rattle.std.specs.Prelude.{◌≡◌, All, IfOk};
ghost use Rattle.unroll.specs.Queries.{goal_lits};
ghost use Rattle.unroll.specs.Building.{HasLit};

use crate::lits::lit_with_value;
use aig_model::Lit;
use cnf_base::CnfLit;
use ketch_base::OutOfMemory;
use std::alloc::Global;

/// Each signal's literal, negated where its bit of the goal is 0.
pub(crate) fn goal_lits(
    alloc: Global,
    before: u32,
    lits: &[Lit],
    goal: u32,
) -> Result<Vec<CnfLit>, OutOfMemory>
    requires { All (HasLit 4000000 before) lits.now }
    ensures { IfOk result (λ shown. shown.items ≡ goal_lits before lits.now goal) }
{
    let mut shown = Vec::with_capacity(alloc, lits.len())?;
    let mut rest = goal;
    for lit in lits {
        shown.push(lit_with_value(before, *lit, rest % 2 == 1))?;
        rest /= 2;
    }
    Ok(shown)
}
