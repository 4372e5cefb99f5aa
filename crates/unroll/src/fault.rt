//! Why there are no frames.

use ketch_base::OutOfMemory;
use thiserror::Error;

#[derive(Clone, Copy, Debug, PartialEq, Eq, Error)]
pub enum FrameFault {
    /// The steps have more than 4,000,000 variables together.
    #[error("the frames have too many variables")]
    TooLarge,
    #[error("out of memory")]
    OutOfMemory,
}

impl From<OutOfMemory> for FrameFault {
    ghost use Rattle.std.specs.Prelude.{◌≡◌};
    ghost use Rattle.unroll.specs.declared.fault.FrameFault.TheVariants.{OutOfMemory};

    ghost from_gives = { λ _ e. e ≡ OutOfMemory };

    fn from(_error: OutOfMemory) -> FrameFault {
        FrameFault::OutOfMemory
    }
}
