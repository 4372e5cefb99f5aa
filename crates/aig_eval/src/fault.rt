//! Why a trace doesn't replay.

use ketch_base::OutOfMemory;
use thiserror::Error;

/// The first misfit of a trace; latches and steps are counted from 0.
#[derive(Clone, Copy, Debug, PartialEq, Eq, Error)]
pub enum ReplayFault {
    #[error("the trace has another shape than the circuit")]
    Shape,
    #[error("latch {latch} starts at another value than its reset")]
    NotReset { latch: u32 },
    #[error("a constraint is false at step {step}")]
    Constraint { step: u32 },
    #[error("out of memory")]
    OutOfMemory,
}

impl From<OutOfMemory> for ReplayFault {
    ghost use Rattle.std.specs.Prelude.{◌≡◌};
    ghost use Rattle.aig_eval.specs.declared.fault.ReplayFault.TheVariants.{OutOfMemory};

    ghost from_gives = { λ _ e. e ≡ OutOfMemory };

    fn from(_error: OutOfMemory) -> ReplayFault {
        ReplayFault::OutOfMemory
    }
}
