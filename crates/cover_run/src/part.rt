//! One file of a command.

ghost use Rattle.std.specs.Prelude.{◌≡◌, ◌≤◌, [], ◌∷◌, IfOk, IfErr, IfSome, OnOk, length};
ghost use Rattle.run_io.specs.Desk.{HasSameTexts, CountsFaults};
ghost use Rattle.command_words.specs.Limits.{limit_of};
ghost use Rattle.cover_run.specs.Files.{HasRead};
ghost use Rattle.cover_run.specs.Seen.{seen};
ghost use Rattle.cover_run.specs.Steps.{PartCause, IsPartRead};

use command_words::{File, Stop, limit_of};
use run_io::{Desk, ReadFault, read_file};
use std::alloc::Global;

/// The file's bytes, within its limit.
pub(crate) fn read_part<D: Desk>(
    alloc: Global,
    desk: &mut D,
    file: File,
    name: &[u8],
) -> Result<Vec<u8>, Stop>
    ensures text { HasSameTexts (D.state desk.old) (D.state desk.new) }
    ensures counts { CountsFaults (D.state desk.old) (D.state desk.new) }
    ensures whole { IfOk result (λ bytes. IfSome ((D.state desk.old).text name.now) (λ text. bytes.items ≡ text)) }
    ensures short { IfOk result (λ bytes. length bytes.items ≤ limit_of file) }
    ensures read { OnOk result (IsPartRead (seen (D.state desk.old) (D.state desk.new)) file name.now) }
    ensures cause { IfErr result (PartCause (seen (D.state desk.old) (D.state desk.new)) file name.now) }
    ensures left { IfErr result (HasRead ((file, name.now) ∷ []) (seen (D.state desk.old) (D.state desk.new))) }
{
    match read_file(alloc, desk, name, limit_of(file)) {
        Ok(bytes) => Ok(bytes),
        Err(ReadFault::Failed) => Err(Stop::Unreadable(file)),
        Err(ReadFault::TooLong) => Err(Stop::TooLong(file)),
        Err(ReadFault::OutOfMemory) => Err(Stop::OutOfMemory),
    }
}
