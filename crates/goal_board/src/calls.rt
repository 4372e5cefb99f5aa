//! How a caller posts and looks.

ghost use Rattle.std.specs.Prelude.{◌≡◌, ◌+◌, ◌/◌, ◌%◌, ◌<◌, ◌≤◌, ◌∷◌, ◌++◌, [], ℕ, Option, Contains, IfSome};
ghost use Rattle.aig_model.specs.declared.parts.Kind.{Kind};
ghost use Rattle.board_core.specs.declared.view.GoalMark.{GoalMark};
ghost use Rattle.board_core.specs.Core.{word_of, with_entry, with_mark, with_look};
ghost use Rattle.goal_facts.specs.Found.{Found, IsOfKind};
ghost use Rattle.goal_board.specs.Passes.{IsPassOf, IsShownBy, MayPost, front_after, look_of, posted_entry};
ghost use Rattle.goal_board.specs.declared.calls.Look.TheVariants.{Unsettled, Settled};

use crate::board::Board;
use crate::pass::{Pass, Posted};
use crate::table::{load, mark, number};
use aig_model::Kind;
use board_core::{Entry, GoalMark, Source};
use inv_cert::Evidence;

/// The number of an entry, and how much of the history its caller had seen.
#[derive(Clone, Copy, Debug, PartialEq, Eq)]
pub struct Receipt {
    pub number: u64,
    pub low: u64,
}

/// What a look tells of a goal.
#[derive(Clone, Copy, Debug, PartialEq, Eq)]
pub enum Look {
    Unsettled,
    Settled(Kind),
}

/// The mark that a word stands for.
pub(crate) fn mark_in(word: u64) -> Option<GoalMark>
    ensures mark { (mark : Option GoalMark) → word ≡ word_of mark → result ≡ mark }
    ensures small { IfSome result (λ m. m.number < 9223372036854775808) }
{
    let number = (word / 4).checked_sub(1)?;
    let kind = if word % 4 == 0 {
        Kind::Reached
    } else {
        Kind::Unreachable
    };
    Some(GoalMark { number, kind })
}

fn look_of(mark: Option<GoalMark>) -> Look
    ensures { result ≡ look_of mark }
{
    match mark {
        None => Look::Unsettled,
        Some(mark) => Look::Settled(mark.kind),
    }
}

/// How much of the history is seen after a look that finds this mark.
fn front_after(front: u64, mark: Option<GoalMark>) -> u64
    requires { IfSome mark (λ m. m.number < 9223372036854775808) }
    ensures { result ≡ front_after front mark }
{
    match mark {
        None => front,
        Some(mark) => front.max(mark.number + 1),
    }
}

impl Board {
    /// Looks at a goal. Takes no memory and waits for nobody.
    pub fn look(&self, pass: &mut Pass, goal: u32) -> Look
        requires pass { IsPassOf self.now pass.old }
        requires goal { goal < self.now.terms.goals }
        ensures pass { IsPassOf self.now pass.new }
        ensures same { (pass.new.caller ≡ pass.old.caller) × (pass.new.evidence ≡ pass.old.evidence) }
        ensures known { (mark : Option GoalMark) × (result ≡ look_of mark) × (pass.new.known ≡ with_look pass.old.known goal mark) }
        ensures unsettled { result ≡ Unsettled → ¬ Contains pass.old.known.settled goal }
        ensures settled { (kind : Kind) → result ≡ Settled kind → IsOfKind self.now.terms.signals.value.circuit self.now.terms.signals.value.lits kind goal }
    {
        let found = mark_in(load(&self.table, &mut pass.seat, goal));
        pass.front = front_after(pass.front, found);
        look_of(found)
    }

    /// Posts for a goal, which is settled from then on. Takes no memory and waits for nobody.
    pub fn post(&self, pass: &mut Pass, evidence: Evidence, source: Source) -> Receipt
        requires pass { IsPassOf self.now pass.old }
        requires evidence { evidence.signals ≡ self.now.terms.signals.value }
        requires shown { IsShownBy self.now.terms source evidence.basis }
        requires new { MayPost pass.old evidence.goal }
        requires found { Found self.now.terms.signals.value.circuit self.now.terms.signals.value.lits self.now.terms.options source evidence.goal }
        ensures pass { IsPassOf self.now pass.new }
        ensures caller { pass.new.caller ≡ pass.old.caller }
        ensures receipt { (result.low ≡ pass.old.known.front) × (result.low ≤ result.number) }
        ensures known { pass.new.known ≡ with_mark (with_entry pass.old.known (posted_entry pass.old.caller evidence.goal source result.number result.low)) evidence.goal }
        ensures evidence { pass.new.evidence ≡ pass.old.evidence ++ evidence ∷ [] }
    {
        evidence.is_checked();
        let goal = evidence.goal();
        let low = pass.front;
        let number = number(&self.table, &mut pass.seat, goal, source);
        let entry = Entry {
            number,
            caller: pass.caller,
            goal,
            kind: source.kind(),
            source,
            low,
        };
        mark(&self.table, &mut pass.seat, &entry);
        pass.front = number + 1;
        pass.posted[goal as usize] = true;
        pass.posts.push_reserved(Posted { entry, evidence });
        Receipt { number, low }
    }
}
