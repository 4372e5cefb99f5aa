//! Bytes written whole to a sink.

ghost use Rattle.std.specs.Prelude.{◌≡◌, OnOk, OnErr, IsErrOf};
ghost use Rattle.run_io.specs.Count.{Rose, CountsOn};
ghost use Rattle.run_io.specs.Sink.{Grew, GrewByPrefix, GrewByPart};

use crate::sink::Sink;
use thiserror::Error;

/// Why bytes were not all written.
#[derive(Clone, Copy, Debug, PartialEq, Eq, Error)]
pub enum WriteFault {
    #[error("the sink failed")]
    Failed,
    #[error("the sink took nothing")]
    TookNothing,
}

/// Writes all of `bytes`, in as many writes as that takes, and takes no memory.
pub fn write_all<S: Sink>(sink: &mut S, bytes: &[u8]) -> Result<(), WriteFault>
    ensures counts { CountsOn (S.state sink.old).faults (S.state sink.new).faults }
    ensures idle_counts { CountsOn (S.state sink.old).idle (S.state sink.new).idle }
    ensures no_fault { ¬ IsErrOf result WriteFault.Failed → (S.state sink.new).faults ≡ (S.state sink.old).faults }
    ensures not_idle { ¬ IsErrOf result WriteFault.TookNothing → (S.state sink.new).idle ≡ (S.state sink.old).idle }

    ensures ok { OnOk result (Grew (S.state sink.old).taken (S.state sink.new).taken bytes.now) }
    ensures prefix { GrewByPrefix (S.state sink.old).taken (S.state sink.new).taken bytes.now }
    ensures part { OnErr result (GrewByPart (S.state sink.old).taken (S.state sink.new).taken bytes.now) }
    ensures failed { IsErrOf result WriteFault.Failed → Rose (S.state sink.old).faults (S.state sink.new).faults }
    ensures nothing { IsErrOf result WriteFault.TookNothing → Rose (S.state sink.old).idle (S.state sink.new).idle }
{
    let mut at = 0;
    while at < bytes.len() {
        match sink.write(&bytes[at..]) {
            Ok(0) => return Err(WriteFault::TookNothing),
            Ok(count) => at += count,
            Err(_) => return Err(WriteFault::Failed),
        }
    }
    Ok(())
}
