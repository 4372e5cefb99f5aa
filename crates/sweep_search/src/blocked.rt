//! The goals that a query leaves out: all that are settled.

ghost use Rattle.std.specs.Prelude.{◌≡◌, ◌↔◌, ◌<◌, ◌≤◌, ◌^◌, ℕ, All, length, get_or, false, true, Contains, IfOk};
ghost use Rattle.sweep_search.specs.Sweep.{IsMarked, IsSettled};

use crate::swept::{FoundGoal, FoundGoals};
use aig_model::{Bits, Goals};
use ketch_base::OutOfMemory;
use std::alloc::Global;

/// The marks of all goals that are settled: those that were marked before, and those that are found.
fn marks(alloc: Global, known: &Bits, found: &FoundGoals) -> Result<Bits, OutOfMemory>
    requires { All (λ (new : FoundGoal). new.goal < length known.now) found.now }
    ensures size { IfOk result (λ marks. length marks ≡ length known.now) }
    ensures marks { IfOk result (λ marks. (goal : ℕ) → IsMarked marks goal ↔ IsSettled known.now found.now goal) }
{
    let mut marks = known.part(alloc, 0, known.len())?;
    for new in found.as_slice() {
        marks.set(new.goal as usize, true);
    }
    Ok(marks)
}

/// The marked goals, in rising order.
fn marked_goals(alloc: Global, marks: &Bits) -> Result<Goals, OutOfMemory>
    requires { length marks.now ≤ 2 ^ 32 }
    ensures { IfOk result (λ goals. (goal : ℕ) → Contains goals goal ↔ IsMarked marks.now goal) }
{
    let mut goals = Goals::new(alloc);
    for goal in 0..marks.len() {
        if marks.get(goal) {
            goals.push(goal as u32)?;
        }
    }
    Ok(goals)
}

/// The goals that are settled, in rising order.
pub fn settled_goals(alloc: Global, known: &Bits, found: &FoundGoals) -> Result<Goals, OutOfMemory>
    requires few { length known.now ≤ 2 ^ 32 }
    requires found { All (λ (new : FoundGoal). new.goal < length known.now) found.now }
    ensures { IfOk result (λ goals. (goal : ℕ) → Contains goals goal ↔ IsSettled known.now found.now goal) }
{
    let marks = marks(alloc, known, found)?;
    let goals = marked_goals(alloc, &marks)?;
    Ok(goals)
}
