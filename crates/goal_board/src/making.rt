//! How a board is made.

ghost use Rattle.std.specs.Prelude.{◌≡◌, ◌^◌, ◌<◌, ◌≤◌, [], IfOk, length, map};
ghost use Rattle.std.specs.List.{range_with_len};
ghost use Rattle.board_core.specs.Core.{fresh_view};
ghost use Rattle.goal_board.specs.Passes.{AreAllOf, new_pass};
ghost use Rattle.goal_board.specs.Inside.{IsFreshView};

use crate::board::Board;
use crate::pass::Pass;
use crate::passes::Passes;
use crate::space::make_space;
use crate::table::{TableSeat, cut, set_up};
use aig_model::Signals;
use ketch_base::OutOfMemory;
use sim_walk::Options;
use std::alloc::Global;

/// A board on which nothing was posted, and its callers' passes, with the room for all that they can post.
pub fn make_board(
    alloc: Global,
    signals: &Signals,
    options: &Options,
    callers: u32,
) -> Result<(Board, Passes), OutOfMemory>
    requires some { 0 < callers }
    requires few { callers ≤ 8 }
    ensures terms { IfOk result (λ r. (r.0.terms.signals.value ≡ signals.now) × (r.0.terms.options ≡ options.now) × (r.0.terms.goals ≡ 2 ^ length signals.now.lits) × (r.0.terms.callers ≡ callers)) }
    ensures passes { IfOk result (λ r. r.1.passes ≡ map (new_pass r.0) (range_with_len 0 callers)) }
    ensures all { IfOk result (λ r. AreAllOf r.0 r.1) }
{
    let goals = signals.goals();
    let space = make_space(alloc, callers, goals)?;
    let mut passes = Vec::with_capacity(alloc, callers as usize)?;
    let (table, mut first) = set_up(alloc, signals, options, callers)?;
    for caller in 1..callers {
        let seat = cut(&table, &mut first);
        passes.push_reserved(pass_of(alloc, goals, caller, seat)?);
    }
    passes.insert(0, pass_of(alloc, goals, 0, first)?)?;
    Ok((
        Board { table },
        Passes {
            passes,
            room: callers,
            goals,
            space,
        },
    ))
}

/// A caller's pass, with room for a post for each goal.
fn pass_of(alloc: Global, goals: u32, caller: u32, seat: TableSeat) -> Result<Pass, OutOfMemory>
    requires fresh { IsFreshView caller goals seat.me.0 }
    requires slots { seat.me.1 ≡ [] }
    ensures { IfOk result (λ p. p ≡ record { table = seat.table_id; terms = seat.me.0.terms; goals = goals; caller = caller; known = fresh_view; evidence = [] }) }
{
    let posts = Vec::with_capacity(alloc, goals as usize)?;
    let posted = vec![in alloc; false; goals as usize]?;
    Ok(Pass {
        posts,
        posted,
        caller,
        front: 0,
        seat,
    })
}
