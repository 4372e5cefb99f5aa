//! The steps on the board's table.

ghost use Rattle.std.specs.Prelude.{◌≡◌, ◌≢◌, ◌+◌, ◌^◌, ◌<◌, ◌≤◌, ℕ, [], Option, None, Some, IfOk, length};
ghost use Rattle.aig_model.specs.declared.parts.Kind.{Kind};
ghost use Rattle.board_core.specs.declared.view.GoalMark.{GoalMark};
ghost use Rattle.board_core.specs.Core.{word_of, kind_number};
ghost use Rattle.board_core.specs.History.{kind_of};
ghost use Rattle.goal_board.specs.Rule.{MayNumber, Tells, numbered, marked, looked, entry_of, first, rest_of, new_caller, joined};

use crate::rule::{BoardRule, CutOff, LookAt, Mark, Number, Post, TakeIn};
use crate::view::{Terms, View};
use aig_model::{Kind, Signals};
use atomic_table::{Seat, Table};
use board_core::{Entry, GoalMark, Source};
use ketch_base::OutOfMemory;
use sim_walk::Options;
use std::alloc::Global;
use std::marker::Brand;
use std::snapshot::Snapshot;

pub type BoardTable = Table<(), View, Terms, BoardRule, Global>;

pub type TableSeat = Seat<(), View>;

/// The table of a board on which nothing has happened, and the first caller's seat, which stands for all callers.
pub fn set_up(
    alloc: Global,
    signals: &Signals,
    options: &Options,
    callers: u32,
) -> Result<(BoardTable, TableSeat), OutOfMemory>
    requires some { 0 < callers }
    requires few { callers ≤ 8 }
    ensures table { IfOk result (λ r. (r.0.shared.table_id.words ≡ r.0.shared.key.goals + 1) × (r.0.shared.table_id.slots ≡ 0)) }
    ensures terms { IfOk result (λ r. (r.0.shared.key.signals.value ≡ signals.now) × (r.0.shared.key.options ≡ options.now) × (r.0.shared.key.goals ≡ 2 ^ length signals.now.lits) × (r.0.shared.key.callers ≡ callers)) }
    ensures seat { IfOk result (λ r. (r.1.table_id ≡ r.0.shared.table_id) × (r.1.me ≡ (first r.0.shared.key, []))) }
{
    signals.is_well_formed();
    let goals = signals.goals();
    let words = vec![in alloc; 0u64; goals as usize + 1]?;
    let terms = Terms {
        signals: Snapshot::of(signals),
        options: *options,
        goals: u64::from(goals),
        callers: u64::from(callers),
    };
    let opened = Table::<(), View, Terms, BoardRule, Global>::of_words(alloc, &words, &terms)?;
    Ok(opened)
}

/// A seat for one more caller.
pub fn cut(table: &BoardTable, seat: &mut TableSeat) -> TableSeat
    requires table { table.now.shared.table_id.words ≡ table.now.shared.key.goals + 1 }
    requires seat { seat.old.table_id ≡ table.now.shared.table_id }
    requires parts { 1 < seat.old.me.0.parts }
    requires caller { (seat.old.me.0.caller ≡ 0) × (seat.old.me.0.made < 8) }
    requires left { seat.old.me.0.share ≤ seat.old.me.0.left }
    ensures seat { (seat.new.table_id ≡ seat.old.table_id) × (seat.new.me ≡ (rest_of seat.old.me.0, seat.old.me.1)) }
    ensures new { (result.table_id ≡ seat.old.table_id) × (result.me ≡ (new_caller seat.old.me.0, [])) }
{
    table.shared.split_seat::<CutOff>(seat)
}

/// The seat takes in another, whose caller has marked what it posted.
pub fn join(table: &BoardTable, seat: &mut TableSeat, other: TableSeat)
    requires table { table.now.shared.table_id.words ≡ table.now.shared.key.goals + 1 }
    requires seat { (seat.old.table_id ≡ table.now.shared.table_id) × (0 < seat.old.me.0.parts) }
    requires other { (other.table_id ≡ table.now.shared.table_id) × (other.me.1 ≡ []) × (0 < other.me.0.parts) }
    requires caller { (other.me.0.caller ≢ 0) × (other.me.0.known.unmarked ≡ None) }
    ensures { (seat.new.table_id ≡ seat.old.table_id) × (seat.new.me ≡ (joined seat.old.me.0 other.me.0, seat.old.me.1)) }
{
    table.shared.join_seat::<TakeIn>(seat, other);
}

/// Draws the number of a new entry.
fn number_as<A: Post>(table: &BoardTable, seat: &mut TableSeat, goal: u32, source: Source) -> u64
    requires table { table.now.shared.table_id.words ≡ table.now.shared.key.goals + 1 }
    requires seat { seat.old.table_id ≡ table.now.shared.table_id }
    requires may { MayNumber table.now.shared.key seat.old.me.0 A.goal A.source }
    ensures seat { seat.new.table_id ≡ seat.old.table_id }
    ensures number { (seat.old.me.0.known.front ≤ result) × (result < 8192) }
    ensures view { seat.new.me ≡ (numbered seat.old.me.0 (entry_of seat.old.me.0 result A.goal A.source), seat.old.me.1) }
{
    let _ = (goal, source);
    table.shared.fetch_add::<Number<A>>(seat, 0, 1)
}

/// The first step of a post: draws the number of the entry.
pub fn number(table: &BoardTable, seat: &mut TableSeat, goal: u32, source: Source) -> u64
    requires table { table.now.shared.table_id.words ≡ table.now.shared.key.goals + 1 }
    requires seat { seat.old.table_id ≡ table.now.shared.table_id }
    requires may { MayNumber table.now.shared.key seat.old.me.0 goal source }
    ensures seat { seat.new.table_id ≡ seat.old.table_id }
    ensures number { (seat.old.me.0.known.front ≤ result) × (result < 8192) }
    ensures view { seat.new.me ≡ (numbered seat.old.me.0 (entry_of seat.old.me.0 result goal source), seat.old.me.1) }
{
    number_as::<Brand>(table, seat, goal, source)
}

fn number_of(kind: Kind) -> u64
    ensures { (result ≡ kind_number kind) × (result < 2) }
{
    match kind {
        Kind::Reached => 0,
        Kind::Unreachable => 1,
    }
}

fn word_of(mark: GoalMark) -> u64
    requires { mark.number < 8192 }
    ensures { result ≡ word_of (Some mark) }
{
    4 * (mark.number + 1) + number_of(mark.kind)
}

/// The second step of a post: marks the entry's goal, unless it is already.
pub fn mark(table: &BoardTable, seat: &mut TableSeat, entry: &Entry)
    requires table { table.now.shared.table_id.words ≡ table.now.shared.key.goals + 1 }
    requires seat { (seat.old.table_id ≡ table.now.shared.table_id) × (0 < seat.old.me.0.parts) }
    requires entry { (seat.old.me.0.known.unmarked ≡ Some entry.now) × (entry.now.goal < table.now.shared.key.goals) × (entry.now.number < 8192) }
    ensures seat { seat.new.table_id ≡ seat.old.table_id }
    ensures view { seat.new.me ≡ (marked seat.old.me.0 entry.now.goal, seat.old.me.1) }
{
    let word = word_of(GoalMark {
        number: entry.number,
        kind: entry.kind,
    });
    table
        .shared
        .compare_exchange::<Mark>(seat, entry.goal as usize + 1, 0, word);
}

/// Looks at a goal, and gives its word.
pub fn load(table: &BoardTable, seat: &mut TableSeat, goal: u32) -> u64
    requires table { table.now.shared.table_id.words ≡ table.now.shared.key.goals + 1 }
    requires seat { (seat.old.table_id ≡ table.now.shared.table_id) × (0 < seat.old.me.0.parts) }
    requires goal { goal < table.now.shared.key.goals }
    ensures seat { seat.new.table_id ≡ seat.old.table_id }
    ensures looked { (mark : Option GoalMark) × (result ≡ word_of mark) × (seat.new.me ≡ (looked seat.old.me.0 goal mark, seat.old.me.1)) × Tells seat.old.me.0 goal mark }
{
    table.shared.load::<LookAt>(seat, goal as usize + 1)
}
