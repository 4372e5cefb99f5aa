//! Why clauses are no kept set, and why a proof makes no certificate.

use ketch_base::OutOfMemory;
use thiserror::Error;

/// Clauses are counted from 0.
#[derive(Clone, Copy, Debug, PartialEq, Eq, Error)]
pub enum KeptFault {
    #[error("there isn't one proof for each clause")]
    Count,
    #[error("a reset state falsifies clause {clause}")]
    Start { clause: u32 },
    #[error("the proof that clause {clause} is kept isn't accepted")]
    Kept { clause: u32 },
    #[error("out of memory")]
    OutOfMemory,
}

impl From<OutOfMemory> for KeptFault {
    ghost use Rattle.std.specs.Prelude.{◌≡◌};
    ghost use Rattle.inv_cert.specs.declared.fault.KeptFault.TheVariants.{OutOfMemory};

    ghost from_gives = { λ _ e. e ≡ OutOfMemory };

    fn from(_error: OutOfMemory) -> KeptFault {
        KeptFault::OutOfMemory
    }
}

#[derive(Clone, Copy, Debug, PartialEq, Eq, Error)]
pub enum CertFault {
    #[error("the proof that the clauses exclude the goal isn't accepted")]
    Excludes,
    #[error("out of memory")]
    OutOfMemory,
}

impl From<OutOfMemory> for CertFault {
    ghost use Rattle.std.specs.Prelude.{◌≡◌};
    ghost use Rattle.inv_cert.specs.declared.fault.CertFault.TheVariants.{OutOfMemory};

    ghost from_gives = { λ _ e. e ≡ OutOfMemory };

    fn from(_error: OutOfMemory) -> CertFault {
        CertFault::OutOfMemory
    }
}
