//! The steps on the desk's table that make and end seats.

ghost use Rattle.std.specs.Prelude.{◌≡◌, ℕ, ◌+◌, ◌<◌, ◌≤◌, [], None, IfOk};
ghost use Rattle.job_desk.specs.Lists.{total, once_below};
ghost use Rattle.job_desk.specs.Draws.{draws_of};
ghost use Rattle.job_desk.specs.Rule.{opening_view, rest_of, new_caller, joined};

use crate::rule::{CutOff, DeskRule, TakeIn};
use crate::view::{Terms, View};
use atomic_table::{Seat, Table};
use ketch_base::OutOfMemory;
use std::alloc::Global;

pub type DeskTable = Table<(), View, Terms, DeskRule, Global>;

/// The table of a desk with the first caller's seat, which stands for all callers.
pub fn set_up(
    alloc: Global,
    jobs: u32,
    callers: u32,
) -> Result<(DeskTable, Seat<(), View>), OutOfMemory>
    requires some { 0 < callers }
    requires few { callers ≤ 8 }
    ensures table { IfOk result (λ r. (r.0.shared.table_id.words ≡ 1) × (r.0.shared.table_id.slots ≡ 0) × (r.0.shared.key.jobs ≡ jobs) × (r.0.shared.key.callers ≡ callers)) }
    ensures seat { IfOk result (λ r. (r.1.table_id ≡ r.0.shared.table_id) × (r.1.me ≡ (opening_view jobs callers, []))) }
{
    let terms = Terms {
        jobs: u64::from(jobs),
        callers: u64::from(callers),
    };
    let opened = Table::<(), View, Terms, DeskRule, Global>::of_words(alloc, &[0], &terms)?;
    Ok(opened)
}

/// A seat for one more caller.
pub fn cut(table: &DeskTable, first: &mut Seat<(), View>) -> Seat<(), View>
    requires table { table.now.shared.table_id.words ≡ 1 }
    requires seat { first.old.table_id ≡ table.now.shared.table_id }
    requires parts { 1 < first.old.me.0.parts }
    requires spare { 0 < first.old.me.0.spare }
    requires makes { 0 < first.old.me.0.made }
    requires few { first.old.me.0.made < first.old.me.0.callers }
    ensures first { (first.new.table_id ≡ first.old.table_id) × (first.new.me ≡ (rest_of first.old.me.0, first.old.me.1)) }
    ensures seat { (result.table_id ≡ first.old.table_id) × (result.me ≡ (new_caller first.old.me.0, [])) }
{
    table.shared.split_seat::<CutOff>(first)
}

/// The first seat takes in the other.
pub fn join(table: &DeskTable, seat: &mut Seat<(), View>, other: Seat<(), View>)
    requires table { table.now.shared.table_id.words ≡ 1 }
    requires seat { (seat.old.table_id ≡ table.now.shared.table_id) × (0 < seat.old.me.0.parts) }
    requires other { (other.table_id ≡ table.now.shared.table_id) × (other.me.1 ≡ []) }
    ensures { (seat.new.table_id ≡ seat.old.table_id) × (seat.new.me ≡ (joined seat.old.me.0 other.me.0, seat.old.me.1)) }
{
    table.shared.join_seat::<TakeIn>(seat, other);
}

/// Ends the table, where one seat stands for all callers: it has all numbers that were drawn.
pub fn close(table: DeskTable, seat: Seat<(), View>)
    requires table { table.shared.table_id.slots ≡ 0 }
    requires seat { seat.table_id ≡ table.shared.table_id }
    requires parts { seat.me.0.parts ≡ table.shared.key.callers }
    ensures { (n : ℕ) × ((x : ℕ) → draws_of x seat.me.0.drawn ≡ once_below x n) }
{
    let closed = table.close_with(seat);
    closed.free();
}
