//! Where files come from.

ghost use Rattle.std.specs.Prelude.{◌≡◌, ℕ, ◌+◌, ◌<◌, ◌^◌, List, length, OnOk, OnErr, IfOk, IsSome};
ghost use Rattle.run_io.specs.Count.{Rose};
ghost use Rattle.run_io.specs.Desk.{DeskState, HasSameTexts, HasSameFaults, CountsFaults, IsStarted, IsKept, Gives};

use thiserror::Error;

/// A device failed.
#[derive(Clone, Copy, Debug, PartialEq, Eq, Error)]
#[error("the device failed")]
pub struct Failed;

/// Files by name, one of which is open at a time.
pub trait Desk {
    /// Counts stop at 2^64 - 1.
    ghost state: { Self → DeskState };

    fn start_file(&mut self, name: &[u8]) -> Result<(), Failed>
        ensures text { HasSameTexts (state self.old) (state self.new) }
        ensures counts { CountsFaults (state self.old) (state self.new) }

        ensures ok { OnOk result (IsStarted (state self.old) (state self.new) name.now) }
        ensures no_fault { OnOk result (HasSameFaults (state self.old) (state self.new)) }
        ensures failed { OnErr result (Rose ((state self.old).faults name.now) ((state self.new).faults name.now)) }
        ensures kept { OnErr result (IsKept (state self.old) (state self.new)) };

    fn read(&mut self, piece: &mut [u8]) -> Result<usize, Failed>
        requires started { IsSome (state self.old).started }
        requires countable { (state self.old).given + length piece.old < 2 ^ 63 }

        ensures text { HasSameTexts (state self.old) (state self.new) }
        ensures started { (state self.new).started ≡ (state self.old).started }
        ensures whole { (state self.new).whole ≡ (state self.old).whole }
        ensures earlier { (state self.new).earlier ≡ (state self.old).earlier }
        ensures counts { CountsFaults (state self.old) (state self.new) }

        ensures ok { IfOk result (Gives (state self.old) (state self.new) piece.new) }
        ensures no_fault { OnOk result (HasSameFaults (state self.old) (state self.new)) }
        ensures failed { OnErr result ((name : List ℕ) → (state self.old).started ≡ Some name →
            Rose ((state self.old).faults name) ((state self.new).faults name)) }
        ensures kept { OnErr result (IsKept (state self.old) (state self.new)) };
}
