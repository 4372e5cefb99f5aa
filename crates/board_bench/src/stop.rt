//! Why nothing was counted.

use aig_ascii::AagFault;
use ketch_base::OutOfMemory;
use signal_list::SigFault;
use std::alloc::AllocFailed;
use std::io::ErrorKind;
use thiserror::Error;

/// The numbers are exit statuses.
#[derive(Clone, Copy, Debug, Error)]
pub enum Stop {
    #[error("usage: board_bench CALLERS BOARDS LOOKS, of 1 to 8, and 1 to 1000000 each")]
    Usage = 2,
    #[error("the program's own circuit is wrong")]
    WrongCircuit = 3,
    #[error("the clock cannot be read")]
    NoClock = 4,
    #[error("out of memory")]
    OutOfMemory = 8,
}

impl From<std::io::Error> for Stop {
    fn from(error: std::io::Error) -> Stop {
        match error.kind() {
            ErrorKind::OutOfMemory => Stop::OutOfMemory,
            _ => Stop::NoClock,
        }
    }
}

impl From<AagFault> for Stop {
    fn from(_fault: AagFault) -> Stop {
        Stop::WrongCircuit
    }
}

impl From<SigFault> for Stop {
    fn from(_fault: SigFault) -> Stop {
        Stop::WrongCircuit
    }
}

impl From<OutOfMemory> for Stop {
    fn from(_error: OutOfMemory) -> Stop {
        Stop::OutOfMemory
    }
}

impl<T: Drop> From<AllocFailed<T>> for Stop {
    fn from(_error: AllocFailed<T>) -> Stop {
        Stop::OutOfMemory
    }
}
