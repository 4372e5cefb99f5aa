//! A whole file, read from a desk.

ghost use Rattle.std.specs.Prelude.{◌≡◌, ℕ, ◌+◌, ◌<◌, ◌≤◌, ◌^◌, ◌↔◌, ◌⊎◌, List, length, Some, IsSome, OnOk, IfOk, IfSome, IsErrOf};
ghost use Rattle.run_io.specs.Count.{Rose};
ghost use Rattle.run_io.specs.Desk.{HasSameTexts, HasSameFaults, CountsFaults, IsAtEnd, IsOpen, IsPast, IsKept};

use crate::desk::{Desk, Failed};
use ketch_base::OutOfMemory;
use std::alloc::Global;
use thiserror::Error;

/// How many bytes are asked for at once: a local array of more would cost its zeroing at each call.
const PIECE: usize = 4096;

/// Why a file was not read.
#[derive(Clone, Copy, Debug, PartialEq, Eq, Error)]
pub enum ReadFault {
    #[error("the file cannot be read")]
    Failed,
    #[error("the file is too long")]
    TooLong,
    #[error("out of memory")]
    OutOfMemory,
}

impl From<Failed> for ReadFault {
    ghost use Rattle.std.specs.Prelude.{◌≡◌};
    ghost use Rattle.run_io.specs.declared.read.ReadFault.TheVariants.{Failed};

    ghost from_gives = { λ _ fault. fault ≡ Failed };

    fn from(_failed: Failed) -> ReadFault {
        ReadFault::Failed
    }
}

impl From<OutOfMemory> for ReadFault {
    ghost use Rattle.std.specs.Prelude.{◌≡◌};
    ghost use Rattle.run_io.specs.declared.read.ReadFault.TheVariants.{OutOfMemory};

    ghost from_gives = { λ _ fault. fault ≡ OutOfMemory };

    fn from(_error: OutOfMemory) -> ReadFault {
        ReadFault::OutOfMemory
    }
}

/// The whole file of a name, of at most `limit` bytes.
pub fn read_file<D: Desk>(
    alloc: Global,
    desk: &mut D,
    name: &[u8],
    limit: u64,
) -> Result<Vec<u8>, ReadFault>
    requires { limit ≤ 2 ^ 40 }

    ensures text { HasSameTexts (D.state desk.old) (D.state desk.new) }
    ensures counts { CountsFaults (D.state desk.old) (D.state desk.new) }

    ensures told { IfOk result (λ bytes. IfSome ((D.state desk.old).text name.now) (λ text. bytes.items ≡ text)) }
    ensures whole { IfOk result (λ bytes. IfSome (D.state desk.new).whole (λ all. bytes.items ≡ all)) }
    ensures end { OnOk result (IsAtEnd (D.state desk.new).left) }
    ensures within { IfOk result (λ bytes. length bytes.items ≤ limit) }
    ensures counted { IfOk result (λ bytes. (D.state desk.new).given ≡ length bytes.items) }
    ensures opened { OnOk result (IsOpen (D.state desk.old) (D.state desk.new) name.now) }

    ensures no_fault { ¬ IsErrOf result ReadFault.Failed → HasSameFaults (D.state desk.old) (D.state desk.new) }
    ensures failed { IsErrOf result ReadFault.Failed →
        Rose ((D.state desk.old).faults name.now) ((D.state desk.new).faults name.now) }
    ensures failed_at { IsErrOf result ReadFault.Failed →
        IsKept (D.state desk.old) (D.state desk.new)
        ⊎ (IsOpen (D.state desk.old) (D.state desk.new) name.now × ((D.state desk.new).given ≤ limit)) }

    ensures too_long { IsErrOf result ReadFault.TooLong →
        IfSome ((D.state desk.old).text name.now) (λ text. limit < length text) }
    ensures too_long_at { IsErrOf result ReadFault.TooLong →
        IsOpen (D.state desk.old) (D.state desk.new) name.now × ((D.state desk.new).given ≡ limit + 1) }

    ensures out_of_memory_at { IsErrOf result ReadFault.OutOfMemory →
        IsOpen (D.state desk.old) (D.state desk.new) name.now × ((D.state desk.new).given ≤ limit) }

    // Either the start failed, or the file was started, and is too long exactly where a byte
    // past the limit was given.
    ensures exact { (IsErrOf result ReadFault.Failed × IsKept (D.state desk.old) (D.state desk.new))
        ⊎ (((D.state desk.new).started ≡ Some name.now)
        × (IsErrOf result ReadFault.TooLong ↔ ((D.state desk.new).given ≡ limit + 1))) }
{
    desk.start_file(name)?;
    let bytes = read_rest(alloc, desk, limit)?;
    Ok(bytes)
}

/// What is left of a file that was just started, of at most `limit` bytes.
fn read_rest<D: Desk>(alloc: Global, desk: &mut D, limit: u64) -> Result<Vec<u8>, ReadFault>
    requires small { limit ≤ 2 ^ 40 }
    requires started { IsSome (D.state desk.old).started }
    requires fresh { (D.state desk.old).given ≡ 0 }

    ensures text { HasSameTexts (D.state desk.old) (D.state desk.new) }
    ensures counts { CountsFaults (D.state desk.old) (D.state desk.new) }
    ensures started { (D.state desk.new).started ≡ (D.state desk.old).started }
    ensures same_whole { (D.state desk.new).whole ≡ (D.state desk.old).whole }
    ensures earlier { (D.state desk.new).earlier ≡ (D.state desk.old).earlier }
    ensures left { IsPast (D.state desk.old).left (D.state desk.new).left (D.state desk.new).given }

    ensures whole { IfOk result (λ bytes. IfSome (D.state desk.old).left (λ rest. bytes.items ≡ rest)) }
    ensures end { OnOk result (IsAtEnd (D.state desk.new).left) }
    ensures within { IfOk result (λ bytes. length bytes.items ≤ limit) }
    ensures counted { IfOk result (λ bytes. (D.state desk.new).given ≡ length bytes.items) }

    ensures no_fault { ¬ IsErrOf result ReadFault.Failed → HasSameFaults (D.state desk.old) (D.state desk.new) }
    ensures failed { IsErrOf result ReadFault.Failed → (n : List ℕ) → (D.state desk.old).started ≡ Some n →
        Rose ((D.state desk.old).faults n) ((D.state desk.new).faults n) }
    ensures failed_at { IsErrOf result ReadFault.Failed → (D.state desk.new).given ≤ limit }
    ensures too_long_at { IsErrOf result ReadFault.TooLong → (D.state desk.new).given ≡ limit + 1 }
    ensures out_of_memory_at { IsErrOf result ReadFault.OutOfMemory → (D.state desk.new).given ≤ limit }
{
    let mut bytes = Vec::new(alloc);
    let mut piece = [0u8; PIECE];
    'pieces: loop {
        let left = limit - bytes.len() as u64;
        let room = (left + 1).min(PIECE as u64) as usize;
        let count = desk.read(&mut piece[..room])?;
        if count == 0 {
            return Ok(bytes);
        }
        if count as u64 > left {
            return Err(ReadFault::TooLong);
        }
        bytes
            .extend_from_slice(&piece[..count])
            .map_err(OutOfMemory::from)?;
    }
}
