//! Why a step or a proof is refused.

use ketch_base::OutOfMemory;
use thiserror::Error;

/// What a step lacks.
#[derive(Clone, Copy, Debug, PartialEq, Eq, Error)]
pub enum ProofKind {
    #[error("the id isn't above all earlier ones")]
    OldId,
    #[error("no clause lives under the id {id}")]
    UnknownId { id: u64 },
    #[error("the clause of the hint {hint} has two open literals")]
    NotUnit { hint: u64 },
    #[error("the hints end before a clause is false")]
    NoConflict,
    #[error("a hint is negative")]
    NegativeHint,
    #[error("no step adds the empty clause")]
    NoEmpty,
}

/// Why a checker refuses a step.
#[derive(Clone, Copy, Debug, PartialEq, Eq, Error)]
pub enum AddFault {
    #[error("{0}")]
    Kind(ProofKind),
    #[error("out of memory")]
    OutOfMemory,
}

/// Why a proof is refused. Steps count from 1.
#[derive(Clone, Copy, Debug, PartialEq, Eq, Error)]
pub enum ProofFault {
    #[error("step {step}: {kind}")]
    At { step: u64, kind: ProofKind },
    #[error("out of memory")]
    OutOfMemory,
}

/// Why a proof isn't one that spends its lemmas. Steps count from 1.
#[derive(Clone, Copy, Debug, PartialEq, Eq, Error)]
pub enum SpentFault {
    #[error("step {step} is refused")]
    Proof { step: u64 },
    #[error("step {step} adds no new lemma")]
    Lemma { step: u64 },
    #[error("the number of lemmas is another")]
    Count,
    #[error("out of memory")]
    OutOfMemory,
}

impl From<OutOfMemory> for AddFault {
    ghost use Rattle.std.specs.Prelude.{◌≡◌};
    ghost use Rattle.lrat_check.specs.declared.fault.AddFault.TheVariants.{OutOfMemory};

    ghost from_gives = { λ _ e. e ≡ OutOfMemory };

    fn from(_error: OutOfMemory) -> AddFault {
        AddFault::OutOfMemory
    }
}

impl From<OutOfMemory> for ProofFault {
    ghost use Rattle.std.specs.Prelude.{◌≡◌};
    ghost use Rattle.lrat_check.specs.declared.fault.ProofFault.TheVariants.{OutOfMemory};

    ghost from_gives = { λ _ e. e ≡ OutOfMemory };

    fn from(_error: OutOfMemory) -> ProofFault {
        ProofFault::OutOfMemory
    }
}

impl From<OutOfMemory> for SpentFault {
    ghost use Rattle.std.specs.Prelude.{◌≡◌};
    ghost use Rattle.lrat_check.specs.declared.fault.SpentFault.TheVariants.{OutOfMemory};

    ghost from_gives = { λ _ e. e ≡ OutOfMemory };

    fn from(_error: OutOfMemory) -> SpentFault {
        SpentFault::OutOfMemory
    }
}
