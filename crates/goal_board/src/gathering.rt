//! How a board ends: the history of its posts.

ghost use Rattle.std.specs.Prelude.{◌≡◌, ◌≢◌, ◌⊎◌, ℕ, ◌+◌, ◌*◌, ◌<◌, ◌≤◌, [], None, All, AllPairs, length};
ghost use Rattle.std.specs.Vec.{vec_capacity};
ghost use Rattle.goal_board.specs.Passes.{AreAllOf, BoardState, PassState, IsPassOf};
ghost use Rattle.goal_board.specs.History.{IsHistory, IsLed, AreAtNumbers, IsPostedBy, AreEvidenced, HasEntry, AreMarks};
ghost use Rattle.goal_board.specs.Inside.{IsBoardTable, board_state};
ghost use Rattle.goal_board.specs.Rule.{joined};
ghost use Rattle.goal_board.specs.Ends.{AreGathered};

use crate::board::Board;
use crate::closing::close;
use crate::ordering::{append, in_order};
use crate::pass::{Pass, Posted};
use crate::passes::Passes;
use crate::space::Space;
use crate::table::{BoardTable, TableSeat, join};
use board_core::Entries;
use inv_cert::Evidence;
use ketch_base::Sequence;

/// One evidence an entry.
pub type Evidences = Sequence<Evidence>;

/// For each goal the number of an entry, if there is one.
pub type Marks = Sequence<Option<u64>>;

/// The history of a board, its evidence at the places of the entries, and the marks of its goals.
#[derive(Drop)]
pub struct Gathered {
    pub history: Entries,
    pub evidence: Evidences,
    pub marks: Marks,
}

/// The history of what was posted. Takes no memory.
pub fn gather(board: Board, passes: Passes) -> Gathered
    requires { AreAllOf board passes }
    ensures history { IsHistory board.terms result.history }

    // Each step of any caller was one event of the core.
    ensures events { IsLed board.terms.goals result.history }

    // It has each post of each pass, which stands at its number, and nothing else.
    ensures posts { All (AreAtNumbers result.history result.evidence) passes.passes }
    ensures posted { All (IsPostedBy passes.passes) result.history }
    ensures evidence { AreEvidenced board.terms result.history result.evidence }
    ensures settled { All (λ (p : PassState). All (HasEntry result.history) p.known.settled) passes.passes }
    ensures marks { AreMarks board.terms.goals result.history result.marks }
{
    let Passes {
        passes,
        room: _,
        goals,
        space,
    } = passes;
    let Space {
        posts,
        places,
        history,
        evidence,
        marks,
    } = space;
    let Board { table } = board;
    let (seat, posts) = hand_over(&table, passes, goals, posts);
    let marks = close(table, seat, marks);
    let (history, evidence) = in_order(posts, places, history, evidence);
    Gathered {
        history: Sequence::from_vec(history),
        evidence: Sequence::from_vec(evidence),
        marks: Sequence::from_vec(marks),
    }
}

/// Makes one seat of all, and one list of what was posted.
fn hand_over(
    table: &BoardTable,
    passes: Vec<Pass>,
    goals: u32,
    posts: Vec<Posted>,
) -> (TableSeat, Vec<Posted>)
    requires table { IsBoardTable table.now.shared.table_id table.now.shared.key }
    requires some { 0 < length passes.items }
    requires of_board { All (IsPassOf (board_state table.now.shared.table_id table.now.shared.key)) passes.items }
    requires distinct { AllPairs (λ (a b : PassState). a.caller ≢ b.caller) passes.items }
    requires goals { goals ≡ table.now.shared.key.goals }
    requires room { (posts.items ≡ []) × (length passes.items * goals ≤ vec_capacity posts) }
    ensures seat { (result.0.table_id ≡ table.now.shared.table_id) × (result.0.me.0.parts ≡ length passes.items) × (result.0.me.0.known.unmarked ≡ None) }
    ensures posts { AreGathered table.now.shared.key goals passes.items result.0.me.0.known result.1.items }
{
    let mut passes = passes;
    let mut all = posts;
    let Some(last) = passes.pop() else {
        unreachable!()
    };
    let Pass {
        posts,
        posted: _,
        caller: _,
        front: _,
        mut seat,
    } = last;
    append(&mut all, posts);
    while let Some(next) = passes.pop() {
        let Pass {
            posts,
            posted: _,
            caller,
            front: _,
            seat: other,
        } = next;
        append(&mut all, posts);
        seat = both(table, seat, other, caller);
    }
    (seat, all)
}

/// Two seats as one. Caller 0 ends last, so where the other is its seat, that takes in the first.
fn both(table: &BoardTable, seat: TableSeat, other: TableSeat, other_caller: u32) -> TableSeat
    requires table { IsBoardTable table.now.shared.table_id table.now.shared.key }
    requires seat { (seat.table_id ≡ table.now.shared.table_id) × (0 < seat.me.0.parts) × (seat.me.1 ≡ []) × (seat.me.0.known.unmarked ≡ None) }
    requires other { (other.table_id ≡ table.now.shared.table_id) × (0 < other.me.0.parts) × (other.me.1 ≡ []) × (other.me.0.known.unmarked ≡ None) }
    requires caller { other.me.0.caller ≡ other_caller }
    requires apart { seat.me.0.caller ≢ other.me.0.caller }
    ensures table { result.table_id ≡ table.now.shared.table_id }
    ensures me { (result.me ≡ (joined seat.me.0 other.me.0, [])) ⊎ (result.me ≡ (joined other.me.0 seat.me.0, [])) }
{
    let mut seat = seat;
    let mut other = other;
    if other_caller == 0 {
        join(table, &mut other, seat);
        other
    } else {
        join(table, &mut seat, other);
        seat
    }
}
