//! The passes of a board.

ghost use Rattle.std.specs.Prelude.{◌≡◌, ◌↔◌, [], ◌∷◌, ◌++◌, ◌<◌, length, IfSome, IfNone, IsNone};

use crate::pass::Pass;
use crate::space::Space;
use std::marker::Model;

/// The passes of a board, in the order of their callers' numbers as they are made, with the room to gather what they post.
#[derive(Drop)]
pub struct Passes {
    pub(crate) passes: Vec<Pass>,
    pub(crate) room: u32,
    pub(crate) goals: u32,
    pub(crate) space: Space,
}

impl Model for Passes {
    ghost use Rattle.goal_board.specs.Passes.{PassesState};
    ghost use Rattle.goal_board.specs.Inside.{ArePasses};

    ghost Value = { PassesState };

    ghost view = { λ s. record { passes = s.passes.items; room = s.room; goals = s.goals } };

    ghost invariant = { λ s. ArePasses s.passes s.space s.room s.goals };
}

impl Passes {
    /// Takes the last pass off.
    pub fn pop(&mut self) -> Option<Pass>
        ensures same { (self.new.room ≡ self.old.room) × (self.new.goals ≡ self.old.goals) }
        ensures some { IfSome result (λ pass. self.old.passes ≡ self.new.passes ++ pass ∷ []) }
        ensures none { IfNone result (self.new.passes ≡ self.old.passes) }
        ensures empty { IsNone result ↔ (self.old.passes ≡ []) }
    {
        self.passes.pop()
    }

    /// Puts a pass at the end. Takes no memory.
    pub fn put_back(&mut self, pass: Pass)
        requires { length self.old.passes < self.old.room }
        ensures same { (self.new.room ≡ self.old.room) × (self.new.goals ≡ self.old.goals) }
        ensures passes { self.new.passes ≡ self.old.passes ++ pass ∷ [] }
    {
        self.passes.push_reserved(pass);
    }
}
