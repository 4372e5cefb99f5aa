//! The blocks of goals that nothing settles.

ghost use Rattle.std.specs.Prelude.{◌≡◌, ◌<◌, length, IfOk};
ghost use Rattle.run_report.specs.Blocks.{open_block, strength_at, AreOpen};

use aig_model::Bits;
use ketch_base::OutOfMemory;
use report_text::{GoalBlock, HopBounds};
use std::alloc::Global;

/// The bounds of the searches and of the proofs; `cut` is true where a goal's own proof is spent.
#[derive(Debug, Drop)]
pub struct OpenBounds {
    pub depth: Option<u32>,
    pub hops: HopBounds,
    pub strength: Option<u32>,
    pub cut: Bits,
}

fn copy_hops(alloc: Global, hops: &HopBounds) -> Result<HopBounds, OutOfMemory>
    ensures { IfOk result (λ copy. copy ≡ hops.now) }
{
    let mut copy = HopBounds::new(alloc);
    for hop in hops.as_slice() {
        copy.push(*hop)?;
    }
    Ok(copy)
}

/// The strength of the proofs for a goal.
fn strength_of(bounds: &OpenBounds, goal: u32) -> Option<u32>
    requires { goal < length bounds.now.cut }
    ensures { result ≡ strength_at bounds.now goal }
{
    if bounds.cut.get(goal as usize) {
        None
    } else {
        bounds.strength
    }
}

fn open_block(alloc: Global, bounds: &OpenBounds, goal: u32) -> Result<GoalBlock, OutOfMemory>
    requires { goal < length bounds.now.cut }
    ensures { IfOk result (λ block. block ≡ open_block bounds.now goal) }
{
    let hops = copy_hops(alloc, &bounds.hops)?;
    Ok(GoalBlock::Open {
        depth: bounds.depth,
        hops,
        strength: strength_of(bounds, goal),
    })
}

/// An open block for each goal.
pub(crate) fn open_blocks(
    alloc: Global,
    bounds: &OpenBounds,
    goals: u32,
) -> Result<Vec<GoalBlock>, OutOfMemory>
    requires { length bounds.now.cut ≡ goals }
    ensures { IfOk result (λ blocks. AreOpen bounds.now goals blocks.items) }
{
    let mut blocks = Vec::new(alloc);
    for goal in 0..goals {
        let block = open_block(alloc, bounds, goal)?;
        blocks.push(block)?;
    }
    Ok(blocks)
}
