//! What callers of a board post, and how they look.

ghost use Rattle.std.specs.Prelude.{◌≡◌, ◌^◌, ◌<◌, IfOk, IfSome, length};
ghost use Rattle.goal_board.specs.Passes.{IsPassOf};
ghost use Rattle.board_rows.specs.Posters.{HasPosted, HasRounds, IsReached};

use aig_model::{Bits, Circuit, Kind, Signals, Trace};
use board_core::Source;
use goal_board::{Board, Look, Pass};
use inv_cert::Evidence;
use ketch_base::OutOfMemory;
use signal_list::read_signals;
use sim_walk::Options;
use std::alloc::Global;
use text_words::lines_at_most_bytes;

/// One batch and one round, by which any goal may be found that is reached.
pub const OPTIONS: Options = Options {
    depth: 0,
    batches: 1,
    length: 1,
    stall: 1,
    hop: 0,
    seed: 0,
    lemmas: 1,
    strength: 0,
    rounds: 1,
    proofs: false,
};

pub fn signals_of(alloc: Global, text: &[u8], circuit: &Circuit) -> Option<Signals>
    ensures { IfSome result (λ signals. signals.circuit ≡ circuit.now) }
{
    if text.len() >= 10 {
        return None;
    }
    lines_at_most_bytes(text);
    read_signals(alloc, text, circuit).ok()
}

/// So many digits of a number, from the least on.
pub fn digits_of(alloc: Global, number: u32, count: u32) -> Result<Bits, OutOfMemory>
    ensures { IfOk result (λ digits. length digits ≡ count) }
{
    let mut digits = Bits::new(alloc);
    let mut rest = number;
    for _ in 0..count {
        digits.push(rest % 2 == 1)?;
        rest /= 2;
    }
    Ok(digits)
}

pub fn evidence_by(
    alloc: Global,
    circuit: &Circuit,
    signals: &Signals,
    trace: Trace,
) -> Option<Evidence>
    requires circuit { signals.now.circuit ≡ circuit.now }
    requires few { length trace.rows.rows < 2 ^ 32 }
    ensures { IfSome result (IsReached signals.now) }
{
    match Evidence::from_trace(alloc, circuit, signals, trace) {
        Ok(evidence) => Some(evidence),
        Err(_) => None,
    }
}

/// Looks at a goal, if it is one.
pub fn look_at(board: &Board, pass: &mut Pass, goals: u32, goal: u32) -> Option<Look>
    requires pass { IsPassOf board.now pass.old }
    requires goals { goals ≡ board.now.terms.goals }
    ensures { HasPosted board.now pass.old pass.new }
{
    if goal >= goals {
        return None;
    }
    Some(board.look(pass, goal))
}

/// Posts where the caller hasn't posted for the goal: the entry's number, if a look then finds the goal reached.
pub fn post_once(board: &Board, pass: &mut Pass, evidence: Evidence) -> Option<u64>
    requires pass { IsPassOf board.now pass.old }
    requires evidence { IsReached board.now.terms.signals.value evidence }
    requires rounds { HasRounds board.now }
    ensures { HasPosted board.now pass.old pass.new }
{
    evidence.is_checked();
    let goal = evidence.goal();
    if !pass.may_post(goal) {
        return None;
    }
    let receipt = board.post(pass, evidence, Source::Again(0));
    match board.look(pass, goal) {
        Look::Settled(Kind::Reached) => Some(receipt.number),
        _ => None,
    }
}
