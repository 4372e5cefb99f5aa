//! Why nothing is done.

use aig_ascii::AagFault;
use ketch_base::OutOfMemory;
use run_io::{ReadFault, WriteFault};
use signal_list::SigFault;
use std::alloc::AllocFailed;
use std::io::ErrorKind;
use thiserror::Error;
use unroll::FrameFault;

/// The numbers are exit statuses.
#[derive(Clone, Copy, Debug, Error)]
pub enum Stop {
    #[error("usage: engine_bench sweep|prove|search|kept CIRCUIT SIGNALS NUMBER LEMMAS")]
    Usage = 2,
    #[error("a file cannot be read")]
    Unreadable = 3,
    #[error("there is no such formula")]
    NoFormula = 4,
    #[error("the formula cannot be written")]
    CannotWrite = 7,
    #[error("out of memory")]
    OutOfMemory = 8,
}

impl From<std::io::Error> for Stop {
    fn from(error: std::io::Error) -> Stop {
        match error.kind() {
            ErrorKind::OutOfMemory => Stop::OutOfMemory,
            _ => Stop::Usage,
        }
    }
}

impl From<ReadFault> for Stop {
    fn from(fault: ReadFault) -> Stop {
        match fault {
            ReadFault::Failed | ReadFault::TooLong => Stop::Unreadable,
            ReadFault::OutOfMemory => Stop::OutOfMemory,
        }
    }
}

impl From<AagFault> for Stop {
    fn from(fault: AagFault) -> Stop {
        match fault {
            AagFault::At { .. } => Stop::Unreadable,
            AagFault::OutOfMemory => Stop::OutOfMemory,
        }
    }
}

impl From<SigFault> for Stop {
    fn from(fault: SigFault) -> Stop {
        match fault {
            SigFault::At { .. } => Stop::Unreadable,
            SigFault::OutOfMemory => Stop::OutOfMemory,
        }
    }
}

impl From<FrameFault> for Stop {
    fn from(fault: FrameFault) -> Stop {
        match fault {
            FrameFault::TooLarge => Stop::NoFormula,
            FrameFault::OutOfMemory => Stop::OutOfMemory,
        }
    }
}

impl From<WriteFault> for Stop {
    fn from(_fault: WriteFault) -> Stop {
        Stop::CannotWrite
    }
}

impl From<OutOfMemory> for Stop {
    fn from(_error: OutOfMemory) -> Stop {
        Stop::OutOfMemory
    }
}

impl<T: Drop> From<AllocFailed<T>> for Stop {
    fn from(_error: AllocFailed<T>) -> Stop {
        Stop::OutOfMemory
    }
}
