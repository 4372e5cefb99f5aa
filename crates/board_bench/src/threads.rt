//! Each caller on a thread of its own.

ghost use Rattle.std.specs.Prelude.{◌≡◌, ℕ, ◌<◌, All, length, slice_index_or};
ghost use Rattle.board_bench.specs.Callers.{IsReady};
ghost use Rattle.board_bench.specs.declared.caller.Caller.{Caller};

use crate::caller::{Caller, look_all, post_all};
use goal_board::Board;
use std::thread;
use std::thread::Threads;

/// Each caller posts what it has.
fn post_each<R: Threads + Sync>(rt: &R, board: &Board, callers: &mut [Caller])
    requires { All (IsReady board.now) callers.old }
    ensures len { length callers.new ≡ length callers.old }
    ensures each { (k : ℕ) (d : Caller) → k < length callers.old → IsReady board.now (slice_index_or callers.new k d) }
{
    thread::for_each_mut(
        rt,
        callers,
        8,
        &|_, caller: &mut Caller|
            requires { IsReady board.now caller.old }
            ensures { IsReady board.entry.now caller.new }
        { post_all(board, caller) },
    );
}

/// Each caller looks at each goal so many times.
fn look_each<R: Threads + Sync>(
    rt: &R,
    board: &Board,
    callers: &mut [Caller],
    goals: u32,
    times: u32,
)
    requires ready { All (IsReady board.now) callers.old }
    requires goals { goals ≡ board.now.terms.goals }
    ensures len { length callers.new ≡ length callers.old }
    ensures each { (k : ℕ) (d : Caller) → k < length callers.old → IsReady board.now (slice_index_or callers.new k d) }
{
    thread::for_each_mut(
        rt,
        callers,
        8,
        &|_, caller: &mut Caller|
            requires { IsReady board.now caller.old × (goals ≡ board.now.terms.goals) }
            ensures { IsReady board.entry.now caller.new }
        { look_all(board, caller, goals, times) },
    );
}

pub fn post_in_threads<R: Threads + Sync>(rt: &R, board: &Board, callers: &mut Vec<Caller>)
    requires { All (IsReady board.now) callers.old.items }
    ensures { All (IsReady board.now) callers.new.items }
{
    post_each(rt, board, callers.as_mut_slice());
}

pub fn look_in_threads<R: Threads + Sync>(
    rt: &R,
    board: &Board,
    callers: &mut Vec<Caller>,
    goals: u32,
    times: u32,
)
    requires ready { All (IsReady board.now) callers.old.items }
    requires goals { goals ≡ board.now.terms.goals }
    ensures { All (IsReady board.now) callers.new.items }
{
    look_each(rt, board, callers.as_mut_slice(), goals, times);
}
