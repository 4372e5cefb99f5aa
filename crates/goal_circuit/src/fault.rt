//! Why there is no goal circuit.

use ketch_base::OutOfMemory;
use thiserror::Error;

#[derive(Clone, Copy, Debug, PartialEq, Eq, Error)]
pub enum GoalFault {
    #[error("the goal circuit has too many variables")]
    TooLarge,
    #[error("out of memory")]
    OutOfMemory,
}

impl From<OutOfMemory> for GoalFault {
    ghost use Rattle.std.specs.Prelude.{◌≡◌};
    ghost use Rattle.goal_circuit.specs.declared.fault.GoalFault.TheVariants.{OutOfMemory};

    ghost from_gives = { λ _ e. e ≡ OutOfMemory };

    fn from(_error: OutOfMemory) -> GoalFault {
        GoalFault::OutOfMemory
    }
}
