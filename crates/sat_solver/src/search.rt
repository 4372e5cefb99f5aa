//! What a search keeps.

ghost use Rattle.std.specs.Prelude.{◌≡◌, ◌≤◌, [], slice_get, IfOk};
ghost use Rattle.std.specs.List.{range_with_len};

use crate::considered::Considered;
use crate::phases::Phases;
use crate::ranks::Ranks;
use crate::restart::Restarts;
use ketch_base::OutOfMemory;
use lrat_text::Proof;
use sat_learn::{Analyzer, Premises};
use sat_queue::VarQueue;
use sat_trail::Trail;
use sat_watch::ClauseBook;
use std::alloc::Global;

#[derive(Drop)]
pub struct Search {
    pub premises: Premises,
    pub queue: VarQueue,
    pub ranks: Ranks,
    /// A variable of the queue before which all are assigned; none where there is no variable.
    pub from: Option<u32>,
    pub phases: Phases,
    pub analyzer: Analyzer,
    /// The variables of level 0 that were considered for lemmas.
    pub considered: Considered,
    pub steps: Proof,
    /// How many of the steps are learned clauses. The others are literals of level 0.
    pub conflicts: usize,
    pub restarts: Restarts,
}

/// With no clause and nothing assigned.
pub fn no_premises(alloc: Global, vars: u32) -> Result<Premises, OutOfMemory>
    requires { vars ≤ 4000000 }
    ensures trail { IfOk result (λ p. p.trail ≡ record { vars = vars; assignments = []; level = 0; low = 0 }) }
    ensures book { IfOk result (λ p. p.book ≡ record { vars = vars; clauses = []; seen = [] }) }
    ensures proof_ids { IfOk result (λ p. p.proof_ids.items ≡ []) }
{
    Ok(Premises {
        trail: Trail::new(alloc, vars)?,
        book: ClauseBook::new(alloc, vars)?,
        proof_ids: Vec::new(alloc),
    })
}

impl Search {
    pub fn new(alloc: Global, vars: u32) -> Result<Search, OutOfMemory>
        requires { vars ≤ 4000000 }
        ensures trail { IfOk result (λ s. s.premises.trail ≡ record { vars = vars; assignments = []; level = 0; low = 0 }) }
        ensures book { IfOk result (λ s. s.premises.book ≡ record { vars = vars; clauses = []; seen = [] }) }
        ensures proof_ids { IfOk result (λ s. s.premises.proof_ids.items ≡ []) }
        ensures steps { IfOk result (λ s. s.steps ≡ []) }
        ensures queue { IfOk result (λ s. s.queue ≡ range_with_len 1 vars) }
        ensures ranks { IfOk result (λ s. s.ranks ≡ vars) }
        ensures from { IfOk result (λ s. s.from ≡ slice_get s.queue 0) }
        ensures phases { IfOk result (λ s. s.phases ≡ vars) }
        ensures analyzer { IfOk result (λ s. s.analyzer ≡ vars) }
        ensures considered { IfOk result (λ s. s.considered ≡ vars) }
        ensures conflicts { IfOk result (λ s. s.conflicts ≡ 0) }
    {
        let queue = VarQueue::new(alloc, vars)?;
        let from = queue.first();
        Ok(Search {
            premises: no_premises(alloc, vars)?,
            queue,
            ranks: Ranks::new(alloc, vars)?,
            from,
            phases: Phases::new(alloc, vars)?,
            analyzer: Analyzer::new(alloc, vars)?,
            considered: Considered::new(alloc, vars)?,
            steps: Proof::new(alloc),
            conflicts: 0,
            restarts: Restarts::new(),
        })
    }
}
