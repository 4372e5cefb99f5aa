//! What ends a run, and its status.

ghost use Rattle.std.specs.Prelude.{◌≡◌};
ghost use Rattle.command_words.specs.Limits.{limit_of};
ghost use Rattle.command_words.specs.Stops.{status_of, settled_status};

use aig_ascii::AagKind;
use aig_binary::AigKind;
use cnf_base::DimacsKind;
use ketch_base::OutOfMemory;
use lrat_check::ProofKind;
use lrat_text::LratKind;
use signal_list::SigKind;
use wit_text::WitKind;

/// A file that a command reads.
#[derive(Clone, Copy, Debug, PartialEq, Eq)]
pub enum File {
    Circuit,
    Signals,
    Formula,
    Proof,
    Witness,
}

/// A number of the input that has a limit.
#[derive(Clone, Copy, Debug, PartialEq, Eq)]
pub enum Measure {
    /// The numbers of variables and clauses that a formula's header states.
    Formula,
    /// The truth values of the longest search's frames.
    Frames,
    /// The truth values of a walk's inputs and its steps.
    Walk,
    /// The variables of the goal circuit.
    Goals,
}

/// The kind of a fault of a circuit's text, in the format that the text begins with.
#[derive(Clone, Copy, Debug, PartialEq, Eq)]
pub enum CircuitKind {
    Ascii(AagKind),
    Binary(AigKind),
}

/// What is wrong first with a trace that doesn't show its property. Latches and steps count from 0.
#[derive(Clone, Copy, Debug, PartialEq, Eq)]
pub enum Misfit {
    /// The latch starts at another value than its reset.
    NotReset { latch: u32 },
    /// A constraint is false at the step.
    Constraint { step: u32 },
    /// The last step shows another goal.
    Property,
}

/// What is wrong first with a proof or a witness that isn't accepted. Lines and a proof's steps count from 1, bytes from 0.
#[derive(Clone, Copy, Debug, PartialEq, Eq)]
pub enum Refusal {
    Formula { line: u32, kind: DimacsKind },
    Proof { line: u32, kind: LratKind },
    Step { step: u64, kind: ProofKind },
    Witness { at: u64, kind: WitKind },
    Trace(Misfit),
}

/// What stops a run before its output is whole.
#[derive(Clone, Copy, Debug, PartialEq, Eq)]
pub enum Stop {
    Usage,
    Unreadable(File),
    TooLong(File),
    TooLarge(Measure),
    /// The place is the first byte at fault, counted from 0.
    BadCircuit { at: u64, kind: CircuitKind },
    /// Lines count from 1; a list without a signal is seen at line 0.
    BadSignals { line: u32, kind: SigKind },
    Refused(Refusal),
    CannotWrite,
    OutOfMemory,
}

/// How a run ends; the program's exit status is the place in this list, counted from 0.
#[derive(Clone, Copy, Debug, PartialEq, Eq)]
pub enum Status {
    Settled,
    Open,
    Usage,
    ReadFault,
    BadCircuit,
    BadSignals,
    Limit,
    WriteFault,
    OutOfMemory,
    Refused,
}

impl From<OutOfMemory> for Stop {
    ghost use Rattle.command_words.specs.declared.stop.Stop.TheVariants.{OutOfMemory};
    ghost use Rattle.std.specs.Prelude.{◌≡◌};

    ghost from_gives = { λ _ stop. stop ≡ OutOfMemory };

    fn from(_error: OutOfMemory) -> Stop {
        Stop::OutOfMemory
    }
}

pub fn limit_of(file: File) -> u64
    ensures { result ≡ limit_of file }
{
    match file {
        File::Circuit | File::Witness => 67_108_864,
        File::Signals => 65_536,
        File::Formula | File::Proof => 268_435_456,
    }
}

pub fn status_of(stop: Stop) -> Status
    ensures { result ≡ status_of stop }
{
    match stop {
        Stop::Usage => Status::Usage,
        Stop::Unreadable(_) => Status::ReadFault,
        Stop::TooLong(_) | Stop::TooLarge(_) => Status::Limit,
        Stop::BadCircuit { at: _, kind: _ } => Status::BadCircuit,
        Stop::BadSignals { line: _, kind: _ } => Status::BadSignals,
        Stop::Refused(_) => Status::Refused,
        Stop::CannotWrite => Status::WriteFault,
        Stop::OutOfMemory => Status::OutOfMemory,
    }
}

pub fn settled_status(settled: bool) -> Status
    ensures { result ≡ settled_status settled }
{
    if settled {
        Status::Settled
    } else {
        Status::Open
    }
}
