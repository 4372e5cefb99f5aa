//! The first entry of each goal.

ghost use Rattle.std.specs.Prelude.{◌++◌, ◌∷◌, [], List, length, IfOk};
ghost use Rattle.board_core.specs.declared.entry.Entry.{Entry};
ghost use Rattle.report_check.specs.Known.{AreFirsts};

use board_core::Entry;
use ketch_base::OutOfMemory;
use std::alloc::Global;

/// Takes one more entry.
fn note(firsts: &mut [Option<Entry>], entry: &Entry)
    ensures { (before : List Entry) → AreFirsts before (length firsts.old) firsts.old → AreFirsts (before ++ entry.now ∷ []) (length firsts.old) firsts.new }
{
    let goal = entry.goal as usize;
    if goal < firsts.len() && firsts[goal].is_none() {
        firsts[goal] = Some(*entry);
    }
}

pub(crate) fn first_entries(
    alloc: Global,
    goals: u32,
    history: &[Entry],
) -> Result<Vec<Option<Entry>>, OutOfMemory>
    ensures { IfOk result (λ firsts. AreFirsts history.now goals firsts.items) }
{
    let mut firsts = vec![in alloc; None; goals as usize]?;
    for entry in history {
        note(&mut firsts, entry);
    }
    Ok(firsts)
}
