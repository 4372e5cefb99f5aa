//! What a replay of a history keeps of the entries so far.

ghost use Rattle.std.specs.Prelude.{◌≡◌, ◌*◌, ◌++◌, ◌∷◌, [], ◌<◌, IfOk, List, MatchOption, length};
ghost use Rattle.board_core.specs.Faults.{IsFirstFault, IsFaultless};
ghost use Rattle.board_core.specs.Posts.{AreOf};
ghost use Rattle.board_core.specs.declared.entry.Entry.{Entry};

use crate::entry::Entry;
use crate::event::{Verdict, Verdicts};
use crate::fault::HistoryKind;
use ketch_base::OutOfMemory;
use sim_walk::Options;
use std::alloc::Global;

/// The verdict of each goal so far, and for each goal and each of eight callers whether the caller posted for it.
#[derive(Drop)]
pub(crate) struct Posts {
    pub(crate) verdicts: Vec<Verdict>,
    pub(crate) posted: Vec<bool>,
}

impl Posts {
    pub(crate) fn new(alloc: Global, goals: u32) -> Result<Posts, OutOfMemory>
        ensures goals { IfOk result (λ posts. length posts.verdicts.items ≡ goals) }
        ensures size { IfOk result (λ posts. length posts.posted.items ≡ goals * 8) }
        ensures none { IfOk result (λ posts. AreOf [] posts.verdicts.items posts.posted.items) }
    {
        let verdicts = vec![in alloc; Verdict::Pending; goals as usize]?;
        let posted = vec![in alloc; false; goals as usize * 8]?;
        Ok(Posts { verdicts, posted })
    }

    /// The first fault of an entry at this place, after as many entries.
    pub(crate) fn fault_of(
        &self,
        place: usize,
        entry: &Entry,
        options: &Options,
    ) -> Option<HistoryKind>
        requires { length self.now.posted.items ≡ length self.now.verdicts.items * 8 }
        ensures { (before : List Entry) → AreOf before self.now.verdicts.items self.now.posted.items → length before ≡ place
            → MatchOption result (IsFaultless options.now (length self.now.verdicts.items) before entry.now) (IsFirstFault options.now (length self.now.verdicts.items) before entry.now) }
    {
        if entry.number != place as u64 {
            return Some(HistoryKind::Number);
        }
        if entry.caller >= 8 {
            return Some(HistoryKind::Caller);
        }
        let goal = entry.goal as usize;
        if goal >= self.verdicts.len() {
            return Some(HistoryKind::Goal);
        }
        if entry.low > entry.number {
            return Some(HistoryKind::Low);
        }
        if !entry.source.is_in_range(options) || entry.kind != entry.source.kind() {
            return Some(HistoryKind::Source);
        }
        if self.posted[goal * 8 + entry.caller as usize] {
            return Some(HistoryKind::Twice);
        }
        if self.verdicts[goal] != Verdict::Pending
            && self.verdicts[goal] != Verdict::Settled(entry.kind)
        {
            return Some(HistoryKind::Kind);
        }
        None
    }

    /// Takes one more entry.
    pub(crate) fn add(&mut self, entry: &Entry)
        requires size { length self.old.posted.items ≡ length self.old.verdicts.items * 8 }
        requires caller { entry.now.caller < 8 }
        requires goal { entry.now.goal < length self.old.verdicts.items }
        ensures size { (length self.new.posted.items ≡ length self.old.posted.items) × (length self.new.verdicts.items ≡ length self.old.verdicts.items) }
        ensures add { (before : List Entry) → AreOf before self.old.verdicts.items self.old.posted.items
            → AreOf (before ++ entry.now ∷ []) self.new.verdicts.items self.new.posted.items }
    {
        let goal = entry.goal as usize;
        self.posted[goal * 8 + entry.caller as usize] = true;
        self.verdicts[goal] = self.verdicts[goal].or(entry.kind);
    }

    pub(crate) fn into_verdicts(self) -> Verdicts
        ensures { result ≡ self.verdicts.items }
    {
        Verdicts::from_vec(self.verdicts)
    }
}
