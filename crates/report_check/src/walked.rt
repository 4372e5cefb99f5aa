//! How far the check of the refuted queries has come.

ghost use Rattle.std.specs.Prelude.{◌≡◌, ◌↔◌, ◌<◌, ◌+◌, ◌^◌, length, IfOk, IsTrue};
ghost use Rattle.report_text.specs.declared.report.Report.{Report};
ghost use Rattle.report_check.specs.Known.{search_of, step_of};
ghost use Rattle.report_check.specs.Walks.{AreWalked, HasAll, IsAdvanced, IsNext};

use crate::bounds::Bounds;
use ketch_base::OutOfMemory;
use report_text::{BlockName, HopBound};
use std::alloc::Global;

/// How far the queries have come: the last one's search, and the number of steps of each search. The sweep is search
/// 0, the hop of batch b search b + 1.
#[derive(Debug, Drop)]
pub(crate) struct Walked {
    pub(crate) last: usize,
    pub(crate) steps: Vec<u32>,
}

pub(crate) fn search_of(name: &BlockName) -> usize
    ensures { result ≡ search_of name.now }
{
    match name {
        BlockName::Hop { batch, .. } => *batch as usize + 1,
        BlockName::Sweep { .. } | BlockName::Kept { .. } | BlockName::Excludes { .. } => 0,
    }
}

fn step_of(name: &BlockName) -> u32
    ensures { result ≡ step_of name.now }
{
    match name {
        BlockName::Sweep { step } | BlockName::Hop { step, .. } => *step,
        BlockName::Kept { .. } | BlockName::Excludes { .. } => 0,
    }
}

impl Walked {
    /// Before the first query of so many batches.
    pub(crate) fn new(alloc: Global, batches: u32) -> Result<Walked, OutOfMemory>
        ensures { (r : Report) → length r.seeds ≡ batches → IfOk result (AreWalked r 0) }
    {
        let steps = vec![in alloc; 0u32; batches as usize + 1]?;
        Ok(Walked { last: 0, steps })
    }

    /// Whether the query's search isn't before the last one, and its step is the next of this search.
    pub(crate) fn is_next(&self, name: &BlockName) -> bool
        requires { search_of name.now < length self.now.steps.items }
        ensures { IsTrue result ↔ IsNext self.now name.now }
    {
        let search = search_of(name);
        self.last <= search && self.steps[search] == step_of(name)
    }

    /// Takes the next query.
    pub(crate) fn advance(&mut self, name: &BlockName)
        requires search { search_of name.now < length self.old.steps.items }
        requires step { step_of name.now + 1 < 2 ^ 32 }
        requires next { IsNext self.old name.now }
        ensures { IsAdvanced self.old name.now self.new }
    {
        let search = search_of(name);
        self.last = search;
        self.steps[search] = step_of(name) + 1;
    }

    /// Whether each step up to the bounds has a query.
    pub(crate) fn has_all(&self, bounds: &Bounds) -> bool
        requires { length self.now.steps.items ≡ length bounds.now.hops + 1 }
        ensures { IsTrue result ↔ HasAll bounds.now self.now }
    {
        if let Some(depth) = bounds.depth
            && self.steps[0] <= depth
        {
            return false;
        }
        for (batch, hop) in bounds.hops.as_slice().iter().enumerate() {
            if let HopBound::To(hop) = hop
                && self.steps[batch + 1] <= *hop
            {
                return false;
            }
        }
        true
    }
}
