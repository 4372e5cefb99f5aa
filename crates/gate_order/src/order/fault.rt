//! Why gates have no order.

use aig_model::Lit;
use ketch_base::OutOfMemory as NoMemory;
use thiserror::Error;

#[derive(Clone, Copy, Debug, PartialEq, Eq, Error)]
pub enum OrderFault {
    /// The least left side among the gates that depend, through zero or more gates, on a gate that depends on itself.
    #[error("gate {} is on a cycle, or depends on one", .lhs.value())]
    Cycle { lhs: Lit },
    #[error("out of memory")]
    OutOfMemory,
}

impl From<NoMemory> for OrderFault {
    ghost use Rattle.std.specs.Prelude.{◌≡◌};
    ghost use Rattle.gate_order.specs.declared.order.fault.OrderFault.TheVariants.{OutOfMemory};

    ghost from_gives = { λ _ e. e ≡ OutOfMemory };

    fn from(_error: NoMemory) -> OrderFault {
        OrderFault::OutOfMemory
    }
}
