//! What a search keeps, from one question to the next.

ghost use Rattle.std.specs.Prelude.{◌≡◌, ◌≤◌, ◌+◌, ◌<◌, ◌^◌, None, [], length, IfOk, OnOk};
ghost use Rattle.sat_incremental.specs.Searching.{IsSearch};

use crate::entry::Entries;
use ketch_base::OutOfMemory;
use sat_learn::{Analyzer, Premises};
use sat_queue::VarQueue;
use sat_solver::{Gathered, Phases, Ranks, Restarts, no_premises};
use std::alloc::Global;

#[derive(Drop)]
pub struct Search {
    pub vars: u32,
    pub premises: Premises,
    pub queue: VarQueue,
    pub ranks: Ranks,
    /// A variable of the queue before which all are assigned; none where there is no variable.
    pub from: Option<u32>,
    pub phases: Phases,
    pub analyzer: Analyzer,
    pub restarts: Restarts,
    pub gathered: Gathered,
    pub entries: Entries,
    /// How many lemmas conflicts have brought since the question was asked.
    pub learned: u64,
    /// The id of the empty clause, once it follows.
    pub refuted: Option<u64>,
}

/// The most entries, so that ids stay small. No memory has room for as many.
const MOST_ENTRIES: u64 = 1 << 60;

/// The id of the next entry.
pub fn next_id(entries: &Entries) -> Result<u64, OutOfMemory>
    ensures id { IfOk result (λ id. id ≡ length entries.now + 1) }
    ensures few { OnOk result (length entries.now < 2 ^ 60) }
{
    let count = entries.len() as u64;
    if count >= MOST_ENTRIES {
        return Err(OutOfMemory);
    }
    Ok(count + 1)
}

impl Search {
    pub fn new(alloc: Global, vars: u32) -> Result<Search, OutOfMemory>
        requires { vars ≤ 4000000 }
        ensures search { IfOk result IsSearch }
        ensures vars { IfOk result (λ s. s.vars ≡ vars) }
        ensures entries { IfOk result (λ s. s.entries ≡ []) }
        ensures refuted { IfOk result (λ s. s.refuted ≡ None) }
    {
        let premises = no_premises(alloc, vars)?;
        let queue = VarQueue::new(alloc, vars)?;
        let from = queue.first();
        let ranks = Ranks::new(alloc, vars)?;
        let phases = Phases::new(alloc, vars)?;
        let analyzer = Analyzer::new(alloc, vars)?;
        let gathered = Gathered::new(alloc, vars)?;
        let entries = Entries::new(alloc);
        Ok(Search {
            vars,
            premises,
            queue,
            ranks,
            from,
            phases,
            analyzer,
            restarts: Restarts::new(),
            gathered,
            entries,
            learned: 0,
            refuted: None,
        })
    }

    /// Takes off every literal above level 0.
    pub fn back_to_root(&mut self)
        requires { IsSearch self.old }
        ensures search { IsSearch self.new }
        ensures root { self.new.premises.trail.level ≡ 0 }
        ensures vars { self.new.vars ≡ self.old.vars }
        ensures entries { self.new.entries ≡ self.old.entries }
        ensures refuted { self.new.refuted ≡ self.old.refuted }
    {
        self.premises.trail.is_well_formed();
        self.phases.note(&self.premises.trail, 0);
        self.premises.trail.back_to(0);
        self.from = self.queue.first();
    }
}
