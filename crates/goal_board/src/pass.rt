//! What one caller has of a board.

ghost use Rattle.std.specs.Prelude.{◌≡◌, ◌↔◌, IsTrue};
ghost use Rattle.goal_board.specs.Passes.{MayPost};

use crate::table::TableSeat;
use board_core::Entry;
use inv_cert::Evidence;
use std::marker::Model;

// An entry, and the evidence for it.
#[derive(Drop)]
pub(crate) struct Posted {
    pub(crate) entry: Entry,
    pub(crate) evidence: Evidence,
}

/// The right of one caller to post and to look, and what it posted.
#[derive(Drop)]
pub struct Pass {
    pub(crate) posts: Vec<Posted>,
    // Of each goal, whether the caller posted for it.
    pub(crate) posted: Vec<bool>,
    pub(crate) caller: u32,
    // How much of the history the caller has seen.
    pub(crate) front: u64,
    pub(crate) seat: TableSeat,
}

impl Model for Pass {
    ghost use Rattle.goal_board.specs.Passes.{PassState};
    ghost use Rattle.goal_board.specs.Inside.{pass_state, IsPass};

    ghost Value = { PassState };

    ghost view = { λ p. pass_state p.posted.items p.posts.items p.seat.table_id p.seat.me.0 };

    ghost invariant = { λ p. IsPass p.posts p.posted.items p.caller p.front p.seat.me };
}

impl Pass {
    /// Whether the goal is in range and the caller hasn't posted for it.
    pub fn may_post(&self, goal: u32) -> bool
        ensures { IsTrue result ↔ MayPost self.now goal }
    {
        match self.posted.get(goal as usize) {
            Some(done) => !*done,
            None => false,
        }
    }
}
