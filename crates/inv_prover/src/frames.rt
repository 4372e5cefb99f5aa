//! The frame of one step, on which all questions of the prover stand.

ghost use Rattle.std.specs.Prelude.{IfOk};
ghost use Rattle.unroll.specs.Framing.{HasFrames};
ghost use Rattle.unroll.specs.declared.start.Start.TheVariants.{Any};

use aig_model::Circuit;
use ketch_base::OutOfMemory;
use std::alloc::Global;
use unroll::{FrameFault, FramedFormula, Start};

/// One step from any state.
pub fn one_step(alloc: Global, circuit: &Circuit) -> Result<FramedFormula, OutOfMemory>
    ensures { IfOk result (HasFrames circuit.now Any 0) }
{
    circuit.is_well_formed();
    match FramedFormula::new(alloc, circuit, &Start::Any, 0) {
        Ok(framed) => Ok(framed),
        Err(FrameFault::TooLarge) => unreachable!(),
        Err(FrameFault::OutOfMemory) => Err(OutOfMemory),
    }
}
