//! The visits of a walk so far, of which each goal has one.

ghost use Rattle.std.specs.Prelude.{◌≡◌, ◌<◌, ◌↔◌, [], length, IsTrue, OnOk, OnErr, IfOk};

use crate::visit::{Visit, Visits};
use aig_model::Bits;
use ketch_base::OutOfMemory;
use std::alloc::Global;
use std::marker::Model;

/// The first visit of each goal so far. The goals that have one are marked, so a visit takes the
/// same time however many came before it.
#[derive(Drop)]
pub struct FirstVisits {
    visits: Visits,
    seen: Bits,
}

impl Model for FirstVisits {
    ghost use Rattle.std.specs.Prelude.{length};
    ghost use Rattle.sim_walk.specs.FirstVisits.{VisitsSoFar, IsMarked};

    ghost Value = { VisitsSoFar };

    ghost view = { λ f. record { goals = length f.seen; visits = f.visits } };

    ghost invariant = { λ f. IsMarked f.seen f.visits };
}

impl FirstVisits {
    ghost use Rattle.sim_walk.specs.FirstVisits.{JoinsFirst};

    /// No visits, for goals below `goals`.
    pub fn new(alloc: Global, goals: u32) -> Result<FirstVisits, OutOfMemory>
        ensures goals { IfOk result (λ first. first.goals ≡ goals) }
        ensures visits { IfOk result (λ first. first.visits ≡ []) }
    {
        let seen = Bits::all_false(alloc, goals as usize)?;
        Ok(FirstVisits {
            visits: Visits::new(alloc),
            seen,
        })
    }

    pub fn add(&mut self, visit: Visit) -> Result<(), OutOfMemory>
        requires { visit.goal < self.old.goals }
        ensures goals { self.new.goals ≡ self.old.goals }
        ensures ok { OnOk result (JoinsFirst self.old.visits self.new.visits visit) }
        ensures err { OnErr result (self.new ≡ self.old) }
    {
        if self.seen.get(visit.goal as usize) {
            return Ok(());
        }
        self.visits.push(visit)?;
        self.seen.set(visit.goal as usize, true);
        Ok(())
    }

    /// Whether each goal has its visit.
    pub fn is_complete(&self) -> bool
        ensures { IsTrue result ↔ (length self.now.visits ≡ self.now.goals) }
    {
        self.visits.len() == self.seen.len()
    }

    pub fn visits(&self) -> &Visits
        ensures { result.now ≡ self.now.visits }
    {
        &self.visits
    }

    pub fn into_visits(self) -> Visits
        ensures { result ≡ self.visits }
    {
        self.visits
    }
}
