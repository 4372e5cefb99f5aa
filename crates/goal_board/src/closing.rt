//! How the board's table ends.

ghost use Rattle.std.specs.Prelude.{◌≡◌, ℕ, ◌+◌, ◌-◌, ◌<◌, ◌≤◌, [], Option, None, length, slice_index, slice_index_or};
ghost use Rattle.std.specs.Vec.{vec_capacity};
ghost use Rattle.std.specs.Slots.{slots_items, slots_len, IsFull};
ghost use Rattle.board_core.specs.declared.view.GoalMark.{GoalMark};
ghost use Rattle.board_core.specs.Core.{word_of};
ghost use Rattle.goal_board.specs.Ends.{IsEnd, number_of};

use crate::calls::mark_in;
use crate::table::{BoardTable, TableSeat};
use atomic_table::Closed;
use board_core::GoalMark;
use std::alloc::Global;

/// Ends the table, where one seat stands for all callers, and gives the numbers of the goals' marks.
pub fn close(table: BoardTable, seat: TableSeat, marks: Vec<Option<u64>>) -> Vec<Option<u64>>
    requires table { (table.shared.table_id.words ≡ table.shared.key.goals + 1) × (table.shared.table_id.slots ≡ 0) }
    requires seat { (seat.table_id ≡ table.shared.table_id) × (seat.me.0.parts ≡ table.shared.key.callers) × (0 < seat.me.0.parts) }
    requires idle { seat.me.0.known.unmarked ≡ None }
    requires room { (marks.items ≡ []) × (table.shared.key.goals ≤ vec_capacity marks) }
    ensures { IsEnd table.shared.key seat.me.0.known result.items }
{
    let goals = table.word_count() - 1;
    let closed = table.close_with(seat);
    let marks = marks_in(&closed, goals, marks);
    closed.free();
    marks
}

/// The number of each goal's mark.
fn marks_in(closed: &Closed<(), Global>, goals: usize, marks: Vec<Option<u64>>) -> Vec<Option<u64>>
    requires words { (slots_len closed.now.words ≡ goals + 1) × IsFull closed.now.words }
    requires room { (marks.items ≡ []) × (goals ≤ vec_capacity marks) }
    ensures count { length result.items ≡ goals }
    ensures marks { (goal : ℕ) (mark : Option GoalMark) → goal < goals → slice_index (slots_items closed.now.words) (goal + 1) ≡ word_of mark
        → slice_index_or result.items goal None ≡ number_of mark }
{
    let mut marks = marks;
    for goal in 0..goals {
        let found = mark_in(closed.word(goal + 1));
        marks.push_reserved(number_of(found));
    }
    marks
}

fn number_of(mark: Option<GoalMark>) -> Option<u64>
    ensures { result ≡ number_of mark }
{
    match mark {
        None => None,
        Some(mark) => Some(mark.number),
    }
}
