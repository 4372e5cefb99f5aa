//! The replay of a history.

ghost use Rattle.std.specs.Prelude.{ℕ, ◌^◌, ◌<◌, IfOk, length};
ghost use Rattle.ketch_base.specs.Exactly.{OkExactly, ErrExactly};
ghost use Rattle.board_core.specs.Faults.{AreVerdicts, IsFaultAt};
ghost use Rattle.board_core.specs.History.{IsLegalHistory};
ghost use Rattle.board_core.specs.declared.fault.HistoryKind.{HistoryKind};

use crate::entry::Entries;
use crate::event::Verdicts;
use crate::fault::HistoryFault;
use crate::posts::Posts;
use sim_walk::Options;
use std::alloc::Global;

/// The verdict of each goal after a legal history.
pub fn replay_history(
    alloc: Global,
    entries: &Entries,
    goals: u32,
    options: &Options,
) -> Result<Verdicts, HistoryFault>
    requires { length entries.now < 2 ^ 32 }
    ensures ok { OkExactly HistoryFault.OutOfMemory result (IsLegalHistory options.now goals entries.now) }
    ensures verdicts { IfOk result (λ verdicts. AreVerdicts entries.now goals verdicts) }

    // The first fault, by entries, and at one entry in the order of `HistoryKind`.
    ensures fault { (at : ℕ) (kind : HistoryKind) → ErrExactly HistoryFault.OutOfMemory result (HistoryFault.At at kind) (IsFaultAt options.now goals entries.now at kind) }
{
    let mut posts = Posts::new(alloc, goals)?;
    for (place, entry) in entries.as_slice().iter().enumerate() {
        if let Some(kind) = posts.fault_of(place, entry, options) {
            return Err(HistoryFault::At {
                at: place as u32,
                kind,
            });
        }
        posts.add(entry);
    }
    Ok(posts.into_verdicts())
}
