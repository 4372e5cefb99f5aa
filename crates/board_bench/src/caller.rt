//! What a caller does.

ghost use Rattle.std.specs.Prelude.{◌≡◌, All};
ghost use Rattle.goal_board.specs.Passes.{IsPassOf};
ghost use Rattle.board_bench.specs.Callers.{HasRounds, IsReached, IsReady};

use aig_model::Kind;
use board_core::Source;
use goal_board::{Board, Look, Pass};
use inv_cert::Evidence;

/// A caller, with the evidence that it is to post, how many posts it made, and how many of its looks found a goal reached.
#[derive(Drop)]
pub struct Caller {
    pub pass: Pass,
    pub evidence: Vec<Evidence>,
    pub posts: u64,
    pub looks: u64,
}

/// Posts, if the caller hasn't posted for the goal: how many posts that is.
fn post(board: &Board, pass: &mut Pass, evidence: Evidence) -> u64
    requires pass { IsPassOf board.now pass.old }
    requires evidence { IsReached board.now.terms.signals.value evidence }
    requires rounds { HasRounds board.now }
    ensures { IsPassOf board.now pass.new }
{
    evidence.is_checked();
    if !pass.may_post(evidence.goal()) {
        return 0;
    }
    board.post(pass, evidence, Source::Again(0));
    1
}

/// Posts all that the caller has.
pub fn post_all(board: &Board, caller: &mut Caller)
    requires { IsReady board.now caller.old }
    ensures { IsReady board.now caller.new }
{
    while let Some(evidence) = caller.evidence.pop() {
        let posts = post(board, &mut caller.pass, evidence);
        caller.posts = caller.posts.saturating_add(posts);
    }
}

/// Looks at each goal: how many are reached.
fn look(board: &Board, pass: &mut Pass, goals: u32) -> u64
    requires pass { IsPassOf board.now pass.old }
    requires goals { goals ≡ board.now.terms.goals }
    ensures { IsPassOf board.now pass.new }
{
    let mut looks = 0u64;
    for goal in 0..goals {
        if board.look(pass, goal) == Look::Settled(Kind::Reached) {
            looks = looks.saturating_add(1);
        }
    }
    looks
}

/// Looks at each goal so many times.
pub fn look_all(board: &Board, caller: &mut Caller, goals: u32, times: u32)
    requires caller { IsReady board.now caller.old }
    requires goals { goals ≡ board.now.terms.goals }
    ensures { IsReady board.now caller.new }
{
    for _ in 0..times {
        let looks = look(board, &mut caller.pass, goals);
        caller.looks = caller.looks.saturating_add(looks);
    }
}
