//! What a caller knows.

ghost use Rattle.std.specs.Prelude.{◌≡◌, ◌≢◌, ◌⊎◌, ◌+◌, ◌-◌, ◌^◌, ◌<◌, ◌++◌, ◌↔◌, All, IfOk, IfSome, IsTrue, None, OnErr, OnOk};
ghost use Rattle.board_core.specs.Core.{fresh_view, with_entry, with_mark, with_look, with_all};
ghost use Rattle.board_core.specs.declared.entry.Entry.{Entry};

use crate::entry::{Entries, Entry};
use aig_model::Kind;
use ketch_base::{OutOfMemory, Sequence};
use std::alloc::Global;

/// The entry that settled a goal, and its kind.
#[derive(Clone, Copy, Debug, PartialEq, Eq)]
pub struct GoalMark {
    pub number: u64,
    pub kind: Kind,
}

/// A look at a goal, and the mark that it found.
#[derive(Clone, Copy, Debug, PartialEq, Eq)]
pub struct Looked {
    pub goal: u32,
    pub mark: Option<GoalMark>,
}

/// A live caller's view: entries, its own and those handed to it; the goals that it has settled or
/// seen settled; how much of the history it has seen; its entry whose goal it hasn't marked yet; how
/// often it looked, up to the end of 64 bits, and its last look.
#[derive(Debug, Drop)]
pub struct View {
    pub entries: Entries,
    pub settled: Sequence<u32>,
    pub front: u64,
    pub unmarked: Option<Entry>,
    pub looks: u64,
    pub last: Option<Looked>,
}

impl View {
    /// Takes no memory.
    pub(crate) fn fresh(alloc: Global) -> View
        ensures { result ≡ fresh_view }
    {
        View {
            entries: Entries::new(alloc),
            settled: Sequence::new(alloc),
            front: 0,
            unmarked: None,
            looks: 0,
            last: None,
        }
    }

    /// Whether the caller has marked what it posted, and would post for the goal for the first time.
    pub(crate) fn may_post(&self, caller: u32, goal: u32) -> bool
        ensures { IsTrue result ↔ ((self.now.unmarked ≡ None) × All (λ (e : Entry). (e.caller ≢ caller) ⊎ (e.goal ≢ goal)) self.now.entries) }
    {
        self.unmarked.is_none() && is_first(self.entries.as_slice(), caller, goal)
    }

    pub(crate) fn post(&mut self, entry: Entry) -> Result<(), OutOfMemory>
        requires { entry.number < 2 ^ 64 - 1 }
        ensures ok { OnOk result (self.new ≡ with_entry self.old entry) }
        ensures err { OnErr result (self.new ≡ self.old) }
    {
        self.entries.push(entry)?;
        self.front = entry.number + 1;
        self.unmarked = Some(entry);
        Ok(())
    }

    pub(crate) fn settle(&mut self, goal: u32) -> Result<(), OutOfMemory>
        ensures ok { OnOk result (self.new ≡ with_mark self.old goal) }
        ensures err { OnErr result (self.new ≡ self.old) }
    {
        self.settled.push(goal)?;
        self.unmarked = None;
        Ok(())
    }

    pub(crate) fn look(&mut self, goal: u32, mark: Option<GoalMark>) -> Result<(), OutOfMemory>
        requires { IfSome mark (λ m. m.number < 2 ^ 64 - 1) }
        ensures ok { OnOk result (self.new ≡ with_look self.old goal mark) }
        ensures err { OnErr result (self.new ≡ self.old) }
    {
        if let Some(found) = mark {
            self.settled.push(goal)?;
            self.front = self.front.max(found.number + 1);
        }
        self.looks = self.looks.saturating_add(1);
        self.last = Some(Looked { goal, mark });
        Ok(())
    }

    /// The view with what the other has.
    pub(crate) fn with_all(&self, alloc: Global, other: &View) -> Result<View, OutOfMemory>
        ensures { IfOk result (λ both. both ≡ with_all self.now other.now) }
    {
        let entries = joined(alloc, self.entries.as_slice(), other.entries.as_slice())?;
        let settled = joined(alloc, self.settled.as_slice(), other.settled.as_slice())?;
        Ok(View {
            entries,
            settled,
            front: self.front.max(other.front),
            unmarked: self.unmarked,
            looks: self.looks,
            last: self.last,
        })
    }
}

/// Whether no entry is this caller's for this goal.
fn is_first(entries: &[Entry], caller: u32, goal: u32) -> bool
    ensures { IsTrue result ↔ All (λ (e : Entry). (e.caller ≢ caller) ⊎ (e.goal ≢ goal)) entries.now }
{
    entries
        .iter()
        .all(|entry| entry.caller != caller || entry.goal != goal)
}

/// The one list, then the other.
fn joined<T: Copy + Drop>(
    alloc: Global,
    first: &[T],
    second: &[T],
) -> Result<Sequence<T>, OutOfMemory>
    ensures { IfOk result (λ both. both ≡ first.now ++ second.now) }
{
    let mut items = Vec::new(alloc);
    items.extend_from_slice(first)?;
    items.extend_from_slice(second)?;
    Ok(Sequence::from_vec(items))
}
