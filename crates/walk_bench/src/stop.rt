//! Why there is no count.

use aig_ascii::AagFault;
use ketch_base::OutOfMemory;
use run_io::ReadFault;
use signal_list::SigFault;
use std::alloc::AllocFailed;
use std::io::ErrorKind;
use thiserror::Error;

/// The numbers are exit statuses.
#[derive(Clone, Copy, Debug, Error)]
pub enum Stop {
    #[error("usage: walk_bench CIRCUIT SIGNALS STEPS BATCHES, of 1 to 1000000 each")]
    Usage = 2,
    #[error("the circuit cannot be read")]
    BadCircuit = 3,
    #[error("the signals cannot be read")]
    BadSignals = 4,
    #[error("out of memory")]
    OutOfMemory = 8,
}

impl From<std::io::Error> for Stop {
    fn from(error: std::io::Error) -> Stop {
        match error.kind() {
            ErrorKind::OutOfMemory => Stop::OutOfMemory,
            _ => Stop::Usage,
        }
    }
}

impl From<ReadFault> for Stop {
    fn from(fault: ReadFault) -> Stop {
        match fault {
            ReadFault::Failed | ReadFault::TooLong => Stop::BadCircuit,
            ReadFault::OutOfMemory => Stop::OutOfMemory,
        }
    }
}

impl From<AagFault> for Stop {
    fn from(_fault: AagFault) -> Stop {
        Stop::BadCircuit
    }
}

impl From<SigFault> for Stop {
    fn from(_fault: SigFault) -> Stop {
        Stop::BadSignals
    }
}

impl From<OutOfMemory> for Stop {
    fn from(_error: OutOfMemory) -> Stop {
        Stop::OutOfMemory
    }
}

impl<T: Drop> From<AllocFailed<T>> for Stop {
    fn from(_error: AllocFailed<T>) -> Stop {
        Stop::OutOfMemory
    }
}
