//! Why parts are not a circuit.

use ketch_base::OutOfMemory as NoMemory;
use thiserror::Error;

/// The kinds are tried in this order, each at its first place in the order of the fields of `Parts`.
#[derive(Clone, Copy, Debug, PartialEq, Eq, Error)]
pub enum BuildFault {
    /// A literal above `2 * top + 1`.
    #[error("literal {lit} is out of range")]
    Range { lit: u32 },
    /// A defining literal that is odd or below 2, or whose variable an earlier one defines.
    #[error("literal {lit} may not be defined here")]
    Defined { lit: u32 },
    /// A used literal whose variable is not 0 and not defined.
    #[error("literal {lit} is not defined")]
    Undefined { lit: u32 },
    /// A gate that uses its own or a later left side, by its place in the list of gates.
    #[error("gate {gate} uses its own or a later left side")]
    Order { gate: u32 },
    #[error("out of memory")]
    OutOfMemory,
}

impl From<NoMemory> for BuildFault {
    ghost use Rattle.std.specs.Prelude.{◌≡◌};
    ghost use Rattle.aig_model.specs.declared.fault.BuildFault.TheVariants.{OutOfMemory};

    ghost from_gives = { λ _ e. e ≡ OutOfMemory };

    fn from(_error: NoMemory) -> BuildFault {
        BuildFault::OutOfMemory
    }
}
