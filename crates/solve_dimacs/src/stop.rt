//! Why there is no answer.

use cnf_base::DimacsFault;
use ketch_base::OutOfMemory;
use run_io::{ReadFault, WriteFault};
use std::alloc::AllocFailed;
use std::io::ErrorKind;
use thiserror::Error;

/// The numbers are exit statuses.
#[derive(Clone, Copy, Debug, Error)]
pub enum Stop {
    #[error("usage: solve_dimacs FORMULA LEMMAS, of 1 to 2^60 lemmas")]
    Usage = 2,
    #[error("the formula cannot be read")]
    BadFormula = 3,
    #[error("the answer cannot be written")]
    CannotWrite = 7,
    #[error("out of memory")]
    OutOfMemory = 8,
}

impl From<std::io::Error> for Stop {
    fn from(error: std::io::Error) -> Stop {
        match error.kind() {
            ErrorKind::OutOfMemory => Stop::OutOfMemory,
            _ => Stop::Usage,
        }
    }
}

impl From<ReadFault> for Stop {
    ghost use Rattle.std.specs.Prelude.{◌≡◌};
    ghost use Rattle.solve_dimacs.specs.Stops.{of_read};

    ghost from_gives = { λ fault e. e ≡ of_read fault };

    fn from(fault: ReadFault) -> Stop {
        match fault {
            ReadFault::Failed | ReadFault::TooLong => Stop::BadFormula,
            ReadFault::OutOfMemory => Stop::OutOfMemory,
        }
    }
}

impl From<DimacsFault> for Stop {
    ghost use Rattle.std.specs.Prelude.{◌≡◌};
    ghost use Rattle.solve_dimacs.specs.Stops.{of_formula};

    ghost from_gives = { λ fault e. e ≡ of_formula fault };

    fn from(fault: DimacsFault) -> Stop {
        match fault {
            DimacsFault::At { .. } => Stop::BadFormula,
            DimacsFault::OutOfMemory => Stop::OutOfMemory,
        }
    }
}

impl From<WriteFault> for Stop {
    ghost use Rattle.std.specs.Prelude.{◌≡◌};
    ghost use Rattle.solve_dimacs.specs.declared.stop.Stop.TheVariants.{CannotWrite};

    ghost from_gives = { λ _ e. e ≡ CannotWrite };

    fn from(_fault: WriteFault) -> Stop {
        Stop::CannotWrite
    }
}

impl From<OutOfMemory> for Stop {
    ghost use Rattle.std.specs.Prelude.{◌≡◌};
    ghost use Rattle.solve_dimacs.specs.declared.stop.Stop.TheVariants.{OutOfMemory};

    ghost from_gives = { λ _ e. e ≡ OutOfMemory };

    fn from(_error: OutOfMemory) -> Stop {
        Stop::OutOfMemory
    }
}

impl<T: Drop> From<AllocFailed<T>> for Stop {
    ghost use Rattle.std.specs.Prelude.{◌≡◌};
    ghost use Rattle.solve_dimacs.specs.declared.stop.Stop.TheVariants.{OutOfMemory};

    ghost from_gives = { λ _ e. e ≡ OutOfMemory };

    fn from(_error: AllocFailed<T>) -> Stop {
        Stop::OutOfMemory
    }
}
