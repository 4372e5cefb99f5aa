//! The steps of a core.

ghost use Rattle.std.specs.Prelude.{◌≡◌, IfOk, OnErr, OnOk, List, length};
ghost use Rattle.board_core.specs.Core.{CanNumber, CanMark, CanLook, CanSplit, CanJoin, Needs, IsStep, reply_to, verdict_by};
ghost use Rattle.board_core.specs.Good.{Fact, Good, IsFact};

use crate::core_state::CoreState;
use crate::entry::{Entry, Source};
use crate::event::{Event, Reply, Verdict};
use crate::view::{GoalMark, View};
use aig_model::Kind;
use ketch_base::OutOfMemory;

impl CoreState {
    /// The event happens. Where it finds no memory, the core stays as it was.
    pub fn step(&mut self, event: Event) -> Result<Reply, OutOfMemory>
        requires { Needs self.old event }
        ensures step { OnOk result (IsStep self.old event self.new) }
        ensures reply { IfOk result (λ reply. reply ≡ reply_to self.old event) }

        // So for every list of facts, a post of one of them keeps the core good.
        ensures good { OnOk result ((facts : List Fact) → Good self.old facts → IsFact facts event → Good self.new facts) }
        ensures err { OnErr result (self.new ≡ self.old) }
    {
        match event {
            Event::Number {
                caller,
                goal,
                kind,
                source,
            } => self.number(caller, goal, kind, source),
            Event::Mark { caller } => self.mark(caller),
            Event::Look { caller, goal } => self.look(caller, goal),
            Event::Split { caller } => self.split(caller),
            Event::Join { from, into } => self.join(from, into),
        }
    }

    fn number(
        &mut self,
        caller: u32,
        goal: u32,
        kind: Kind,
        source: Source,
    ) -> Result<Reply, OutOfMemory>
        requires { CanNumber self.old caller goal }
        ensures step { OnOk result (IsStep self.old (Event.Number caller goal kind source) self.new) }
        ensures reply { IfOk result (λ reply. reply ≡ reply_to self.old (Event.Number caller goal kind source)) }
        ensures err { OnErr result (self.new ≡ self.old) }
    {
        self.history.reserve(1)?;
        let number = self.history.len() as u64;
        let Some(view) = &mut self.views[caller as usize] else {
            unreachable!()
        };
        let entry = Entry {
            number,
            caller,
            goal,
            kind,
            source,
            low: view.front,
        };
        view.post(entry)?;
        self.history.push_reserved(entry);
        Ok(Reply::Numbered(number))
    }

    fn mark(&mut self, caller: u32) -> Result<Reply, OutOfMemory>
        requires { CanMark self.old caller }
        ensures step { OnOk result (IsStep self.old (Event.Mark caller) self.new) }
        ensures reply { IfOk result (λ reply. reply ≡ reply_to self.old (Event.Mark caller)) }
        ensures err { OnErr result (self.new ≡ self.old) }
    {
        let Some(view) = &mut self.views[caller as usize] else {
            unreachable!()
        };
        let Some(entry) = view.unmarked else {
            unreachable!()
        };
        view.settle(entry.goal)?;
        let mark = GoalMark {
            number: entry.number,
            kind: entry.kind,
        };
        let place = entry.goal as usize;
        self.marks[place] = Some(self.marks[place].unwrap_or(mark));
        Ok(Reply::Marked)
    }

    fn look(&mut self, caller: u32, goal: u32) -> Result<Reply, OutOfMemory>
        requires { CanLook self.old caller goal }
        ensures step { OnOk result (IsStep self.old (Event.Look caller goal) self.new) }
        ensures reply { IfOk result (λ reply. reply ≡ reply_to self.old (Event.Look caller goal)) }
        ensures err { OnErr result (self.new ≡ self.old) }
    {
        let mark = self.marks[goal as usize];
        let Some(view) = &mut self.views[caller as usize] else {
            unreachable!()
        };
        view.look(goal, mark)?;
        Ok(Reply::Seen(verdict_of(mark)))
    }

    fn split(&mut self, caller: u32) -> Result<Reply, OutOfMemory>
        requires { CanSplit self.old caller }
        ensures step { OnOk result (IsStep self.old (Event.Split caller) self.new) }
        ensures reply { IfOk result (λ reply. reply ≡ reply_to self.old (Event.Split caller)) }
        ensures err { OnErr result (self.new ≡ self.old) }
    {
        let made = self.views.len() as u32;
        self.views.push(Some(View::fresh(self.alloc)))?;
        Ok(Reply::Split(made))
    }

    fn join(&mut self, from: u32, into: u32) -> Result<Reply, OutOfMemory>
        requires { CanJoin self.old from into }
        ensures step { OnOk result (IsStep self.old (Event.Join from into) self.new) }
        ensures reply { IfOk result (λ reply. reply ≡ reply_to self.old (Event.Join from into)) }
        ensures err { OnErr result (self.new ≡ self.old) }
    {
        let Some(Some(ends)) = self.views.get(from as usize) else {
            unreachable!()
        };
        let Some(Some(stays)) = self.views.get(into as usize) else {
            unreachable!()
        };
        let both = stays.with_all(self.alloc, ends)?;
        self.views[from as usize] = None;
        self.views[into as usize] = Some(both);
        Ok(Reply::Joined)
    }
}

/// What the mark of a goal tells.
fn verdict_of(mark: Option<GoalMark>) -> Verdict
    ensures { result ≡ verdict_by mark }
{
    match mark {
        None => Verdict::Pending,
        Some(mark) => Verdict::Settled(mark.kind),
    }
}
