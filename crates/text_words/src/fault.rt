//! What stops the reading of a line.

use ketch_base::OutOfMemory as NoMemory;
use std::alloc::{AllocError, AllocFailed};

/// What is wrong with a line, by the kinds of its format, or no memory.
#[derive(Clone, Copy, Debug, PartialEq, Eq)]
pub enum LineFault<K> {
    Kind(K),
    OutOfMemory,
}

impl<K> From<NoMemory> for LineFault<K> {
    ghost use Rattle.std.specs.Prelude.{◌≡◌};
    ghost use Rattle.text_words.specs.declared.fault.LineFault.TheVariants.{OutOfMemory};

    ghost from_gives = { λ _ e. e ≡ OutOfMemory };

    fn from(_error: NoMemory) -> LineFault<K> {
        LineFault::OutOfMemory
    }
}

impl<K> From<AllocError> for LineFault<K> {
    ghost use Rattle.std.specs.Prelude.{◌≡◌};
    ghost use Rattle.text_words.specs.declared.fault.LineFault.TheVariants.{OutOfMemory};

    ghost from_gives = { λ _ e. e ≡ OutOfMemory };

    fn from(_error: AllocError) -> LineFault<K> {
        LineFault::OutOfMemory
    }
}

impl<K, T: Drop> From<AllocFailed<T>> for LineFault<K> {
    ghost use Rattle.std.specs.Prelude.{◌≡◌};
    ghost use Rattle.text_words.specs.declared.fault.LineFault.TheVariants.{OutOfMemory};

    ghost from_gives = { λ _ e. e ≡ OutOfMemory };

    fn from(_error: AllocFailed<T>) -> LineFault<K> {
        LineFault::OutOfMemory
    }
}
