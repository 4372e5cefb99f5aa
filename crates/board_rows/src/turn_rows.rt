//! The board: two callers post for one goal, one after the other.

ghost use Rattle.std.specs.Prelude.{◌≡◌, IfOk, IfSome, IsTrue, length};
ghost use Rattle.goal_board.specs.Passes.{AreAllOf, IsPassOf};
ghost use Rattle.board_rows.specs.Posters.{HasPosted, HasRounds, IsReached};

use crate::posting::{OPTIONS, digits_of, evidence_by, look_at, post_once, signals_of};
use aig_ascii::read_aag;
use aig_model::{Circuit, Kind, Rows, Signals, Trace};
use board_core::{Entry, Source};
use goal_board::{Board, Gathered, Look, Pass, Passes, gather, make_board};
use inv_cert::Evidence;
use ketch_base::OutOfMemory;
use std::alloc::Global;
use std::test::Fail;

/// The inputs enable and reset, and a latch that takes up the exclusive or of itself and enable where reset is 1, and else 0. The
/// signals are the latch and enable.
const ENABLED: &[u8] = b"aag 7 2 1 2 4\n2\n4\n6 8\n6\n7\n8 4 10\n10 13 15\n12 2 6\n14 3 7\n";

const SIGNALS: &[u8] = b"l0\ni0";

/// Two steps that end in goal 3, whatever the second one's reset is.
fn two_steps(alloc: Global, reset: bool) -> Result<Trace, OutOfMemory>
    ensures { IfOk result (λ trace. length trace.rows.rows ≡ 2) }
{
    let mut row = digits_of(alloc, 3, 2)?;
    let mut rows = Rows::new(alloc, 2);
    rows.push(&row)?;
    row.set(1, reset);
    rows.push(&row)?;
    let start = digits_of(alloc, 0, 1)?;
    Ok(Trace { start, rows })
}

fn evidence_with(
    alloc: Global,
    circuit: &Circuit,
    signals: &Signals,
    reset: bool,
) -> Option<Evidence>
    requires { signals.now.circuit ≡ circuit.now }
    ensures { IfSome result (IsReached signals.now) }
{
    let trace = two_steps(alloc, reset).ok()?;
    evidence_by(alloc, circuit, signals, trace)
}

/// Whether goal 3 is seen reached and may not be posted for, and goal 0 is pending and may be.
fn knows_goal_3(board: &Board, pass: &mut Pass, goals: u32) -> bool
    requires pass { IsPassOf board.now pass.old }
    requires goals { goals ≡ board.now.terms.goals }
    ensures { HasPosted board.now pass.old pass.new }
{
    let three = look_at(board, pass, goals, 3);
    let none = look_at(board, pass, goals, 0);
    three == Some(Look::Settled(Kind::Reached))
        && none == Some(Look::Unsettled)
        && !pass.may_post(3)
        && pass.may_post(0)
}

/// Whether the entries are numbered 0 and 1, and both callers then know what was posted.
fn post_in_turn(
    board: &Board,
    first: &mut Pass,
    second: &mut Pass,
    one: Evidence,
    other: Evidence,
    goals: u32,
) -> bool
    requires first { IsPassOf board.now first.old }
    requires second { IsPassOf board.now second.old }
    requires one { IsReached board.now.terms.signals.value one }
    requires other { IsReached board.now.terms.signals.value other }
    requires rounds { HasRounds board.now }
    requires goals { goals ≡ board.now.terms.goals }
    ensures first { HasPosted board.now first.old first.new }
    ensures second { HasPosted board.now second.old second.new }
{
    let number = post_once(board, first, one);
    let next = post_once(board, second, other);
    let first_knows = knows_goal_3(board, first, goals);
    let second_knows = knows_goal_3(board, second, goals);
    number == Some(0) && next == Some(1) && first_knows && second_knows
}

/// Has the callers of both passes post in turn.
fn post_both(board: &Board, passes: &mut Passes, one: Evidence, other: Evidence, goals: u32) -> bool
    requires all { AreAllOf board.now passes.old }
    requires one { IsReached board.now.terms.signals.value one }
    requires other { IsReached board.now.terms.signals.value other }
    requires rounds { HasRounds board.now }
    requires goals { goals ≡ board.now.terms.goals }
    ensures { IsTrue result → AreAllOf board.now passes.new }
{
    let Some(mut second) = passes.pop() else {
        return false;
    };
    let Some(mut first) = passes.pop() else {
        return false;
    };
    let held = post_in_turn(board, &mut first, &mut second, one, other, goals);
    passes.put_back(first);
    passes.put_back(second);
    held
}

/// What two callers post, caller 0 with a trace that ends with reset at 0, and caller 1 with one at 1.
fn gathered(alloc: Global, circuit: &Circuit, signals: &Signals) -> Option<Gathered>
    requires { signals.now.circuit ≡ circuit.now }
{
    let one = evidence_with(alloc, circuit, signals, false)?;
    let other = evidence_with(alloc, circuit, signals, true)?;
    let Ok((board, mut passes)) = make_board(alloc, signals, &OPTIONS, 2) else {
        return None;
    };
    if !post_both(&board, &mut passes, one, other, signals.goals()) {
        return None;
    }
    Some(gather(board, passes))
}

/// The entry that a caller posts before it looks.
fn entry_of(caller: u32) -> Entry {
    Entry {
        number: u64::from(caller),
        caller,
        goal: 3,
        kind: Kind::Reached,
        source: Source::Again(0),
        low: 0,
    }
}

/// Whether the trace is of two steps, and the second one's reset is this.
fn ends_with(evidence: &Evidence, reset: bool) -> bool {
    match evidence.trace() {
        None => false,
        Some(trace) => {
            let rows = &trace.rows;
            rows.len() == 2 && rows.width() == 2 && rows.bit(1, 1) == reset
        }
    }
}

/// Whether both posts are there with their evidence, and goal 3 alone is marked, by the first.
fn are_two(gathered: &Gathered) -> bool {
    let [one, other] = gathered.evidence.as_slice() else {
        return false;
    };
    gathered.history.as_slice() == [entry_of(0), entry_of(1)].as_slice()
        && gathered.marks.as_slice() == [None, None, None, Some(0)].as_slice()
        && ends_with(one, false)
        && ends_with(other, true)
}

fn are_posted_in_turn(alloc: Global, circuit: &Circuit) -> bool {
    let Some(signals) = signals_of(alloc, SIGNALS, circuit) else {
        return false;
    };
    match gathered(alloc, circuit, &signals) {
        None => false,
        Some(gathered) => are_two(&gathered),
    }
}

#[test]
fn two_callers_post_for_one_goal(rt: HostRuntime) -> Result<(), Fail> {
    let circuit = read_aag(rt.alloc(), ENABLED)?;
    let held = are_posted_in_turn(rt.alloc(), &circuit);
    assert!(rt; held);
    Ok(())
}
