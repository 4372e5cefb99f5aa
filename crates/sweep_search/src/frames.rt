//! The frames of a search.

ghost use Rattle.std.specs.Prelude.{◌≤◌, ◌<◌, ◌+◌, IfOk, OnOk};
ghost use Rattle.unroll.specs.Frames.{vars_before};
ghost use Rattle.unroll.specs.Framing.{HasFrames};
ghost use Rattle.unroll.specs.Starts.{IsStart};

use aig_model::Circuit;
use ketch_base::OutOfMemory;
use std::alloc::Global;
use unroll::{FrameFault, FramedFormula, Start};

/// The frame of step 0.
pub fn first_frame(
    alloc: Global,
    circuit: &Circuit,
    start: &Start,
) -> Result<FramedFormula, OutOfMemory>
    requires start { IsStart circuit.now start.now }
    requires room { vars_before circuit.now 1 ≤ 4000000 }
    ensures { IfOk result (HasFrames circuit.now start.now 0) }
{
    match FramedFormula::new(alloc, circuit, start, 0) {
        Ok(framed) => Ok(framed),
        Err(FrameFault::TooLarge) => unreachable!(),
        Err(FrameFault::OutOfMemory) => Err(OutOfMemory),
    }
}

/// One step more.
fn advance(
    alloc: Global,
    circuit: &Circuit,
    framed: &mut FramedFormula,
    step: u32,
) -> Result<(), OutOfMemory>
    requires frames { HasFrames circuit.now framed.old.start step framed.old }
    requires room { vars_before circuit.now (step + 2) ≤ 4000000 }
    ensures { OnOk result (HasFrames circuit.now framed.old.start (step + 1) framed.new) }
{
    let _ = step;
    match framed.advance(alloc, circuit) {
        Ok(()) => Ok(()),
        Err(FrameFault::TooLarge) => unreachable!(),
        Err(FrameFault::OutOfMemory) => Err(OutOfMemory),
    }
}

/// One step more, where the frames don't go to the depth yet.
pub fn next_frame(
    alloc: Global,
    circuit: &Circuit,
    framed: &mut FramedFormula,
    step: u32,
    depth: u32,
) -> Result<(), OutOfMemory>
    requires frames { HasFrames circuit.now framed.old.start step framed.old }
    requires room { vars_before circuit.now (depth + 1) ≤ 4000000 }
    ensures { OnOk result (step < depth → HasFrames circuit.now framed.old.start (step + 1) framed.new) }
{
    if step >= depth {
        return Ok(());
    }
    advance(alloc, circuit, framed, step)?;
    Ok(())
}
