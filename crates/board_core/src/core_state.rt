//! A board's core, run by one thread.

ghost use Rattle.std.specs.Prelude.{◌≡◌, ◌≤◌, ◌↔◌, IfOk, IsTrue, MatchOption, Some, replicate};
ghost use Rattle.board_core.specs.Core.{HasView, CanNumber, CanMark, CanLook, CanSplit, CanJoin, Needs, fresh_view, initial_core};
ghost use Rattle.board_core.specs.Good.{IsSound};
ghost use Rattle.board_core.specs.declared.view.View.{View};

use crate::entry::Entry;
use crate::event::Event;
use crate::view::{GoalMark, View};
use ketch_base::OutOfMemory;
use std::alloc::Global;
use std::marker::Model;

/// The core of a board: its history, the mark of each goal, and what each caller knows.
#[derive(Drop)]
pub struct CoreState {
    pub(crate) alloc: Global,
    pub(crate) history: Vec<Entry>,
    pub(crate) marks: Vec<Option<GoalMark>>,
    pub(crate) views: Vec<Option<View>>,
}

impl Model for CoreState {
    ghost use Rattle.board_core.specs.Core.{Core, core_of};
    ghost use Rattle.board_core.specs.Good.{IsSound};

    ghost Value = { Core };

    ghost view = { λ c. core_of c.history.items c.marks.items c.views.items };

    ghost invariant = { λ c. IsSound (core_of c.history.items c.marks.items c.views.items) };
}

impl CoreState {
    /// The callers 0 to `callers - 1`, which know nothing, and goals that are pending.
    pub fn new(alloc: Global, callers: u32, goals: u32) -> Result<CoreState, OutOfMemory>
        requires { callers ≤ 8 }
        ensures { IfOk result (λ core. core ≡ initial_core callers goals) }
    {
        let marks = vec![in alloc; None; goals as usize]?;
        let views = fresh_views(alloc, callers)?;
        Ok(CoreState {
            alloc,
            history: Vec::new(alloc),
            marks,
            views,
        })
    }

    /// Says that a core is sound.
    pub fn is_sound(&self)
        ensures { IsSound self.now }
    {
        let _ = &self.history;
    }

    /// Whether the event may happen.
    pub fn can(&self, event: &Event) -> bool
        ensures { IsTrue result ↔ Needs self.now event.now }
    {
        match *event {
            Event::Number { caller, goal, .. } => self.can_number(caller, goal),
            Event::Mark { caller } => self.can_mark(caller),
            Event::Look { caller, goal } => self.can_look(caller, goal),
            Event::Split { caller } => self.can_split(caller),
            Event::Join { from, into } => self.can_join(from, into),
        }
    }

    fn can_number(&self, caller: u32, goal: u32) -> bool
        ensures { IsTrue result ↔ CanNumber self.now caller goal }
    {
        let Some(view) = self.live(caller) else {
            return false;
        };
        (goal as usize) < self.marks.len() && view.may_post(caller, goal)
    }

    fn can_mark(&self, caller: u32) -> bool
        ensures { IsTrue result ↔ CanMark self.now caller }
    {
        let Some(view) = self.live(caller) else {
            return false;
        };
        view.unmarked.is_some()
    }

    fn can_look(&self, caller: u32, goal: u32) -> bool
        ensures { IsTrue result ↔ CanLook self.now caller goal }
    {
        let Some(_view) = self.live(caller) else {
            return false;
        };
        (goal as usize) < self.marks.len()
    }

    fn can_split(&self, caller: u32) -> bool
        ensures { IsTrue result ↔ CanSplit self.now caller }
    {
        let Some(_view) = self.live(caller) else {
            return false;
        };
        caller == 0 && self.views.len() < 8
    }

    fn can_join(&self, from: u32, into: u32) -> bool
        ensures { IsTrue result ↔ CanJoin self.now from into }
    {
        let Some(_taker) = self.live(into) else {
            return false;
        };
        let Some(view) = self.live(from) else {
            return false;
        };
        from != into && from != 0 && view.unmarked.is_none()
    }

    /// What a live caller knows.
    fn live(&self, caller: u32) -> Option<&View>
        ensures { MatchOption result ((v : View) → ¬ HasView self.now caller v) (λ v. HasView self.now caller v.now) }
    {
        self.views.get(caller as usize)?.as_ref()
    }
}

fn fresh_views(alloc: Global, callers: u32) -> Result<Vec<Option<View>>, OutOfMemory>
    ensures { IfOk result (λ views. views.items ≡ replicate callers (Some fresh_view)) }
{
    let mut views = Vec::with_capacity(alloc, callers as usize)?;
    for _ in 0..callers {
        views.push_reserved(Some(View::fresh(alloc)));
    }
    Ok(views)
}
