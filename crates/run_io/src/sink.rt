//! Where bytes go.

ghost use Rattle.std.specs.Prelude.{◌≡◌, OnOk, OnErr, IfOk};
ghost use Rattle.run_io.specs.Count.{Rose, CountsOn};
ghost use Rattle.run_io.specs.Sink.{SinkState, IsIdle, Takes, TookNothing};

use crate::desk::Failed;

/// A stream of bytes that only grows.
pub trait Sink {
    /// Counts stop at 2^64 - 1.
    ghost state: { Self → SinkState };

    fn write(&mut self, piece: &[u8]) -> Result<usize, Failed>
        ensures counts { CountsOn (state self.old).faults (state self.new).faults }
        ensures idle_counts { CountsOn (state self.old).idle (state self.new).idle }

        ensures ok { IfOk result (Takes (state self.old).taken (state self.new).taken piece.now) }
        ensures no_fault { OnOk result ((state self.new).faults ≡ (state self.old).faults) }
        ensures nothing { IfOk result (λ count. IsIdle count piece.now →
            Rose (state self.old).idle (state self.new).idle) }
        ensures not_idle { IfOk result (λ count. ¬ IsIdle count piece.now →
            (state self.new).idle ≡ (state self.old).idle) }
        ensures failed { OnErr result (Rose (state self.old).faults (state self.new).faults) }
        ensures kept { OnErr result (TookNothing (state self.old) (state self.new)) }
        ensures failed_not_idle { OnErr result ((state self.new).idle ≡ (state self.old).idle) };
}
