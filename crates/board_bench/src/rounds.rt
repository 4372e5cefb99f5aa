//! One board after another.

ghost use Rattle.std.specs.Prelude.{◌≡◌, ◌<◌, ◌≤◌, All, IfOk};
ghost use Rattle.goal_board.specs.Passes.{AreAllOf, IsPassOf};
ghost use Rattle.board_bench.specs.Callers.{HasRounds, IsReady};

use crate::caller::Caller;
use crate::making::evidence_from;
use crate::stop::Stop;
use crate::threads::{look_in_threads, post_in_threads};
use aig_model::{Circuit, Signals};
use goal_board::{Board, Passes, make_board};
use sim_walk::Options;
use std::alloc::Global;
use std::rt::Clock;
use std::thread::Threads;
use std::time::Instant;
use text_words::natural;

/// One batch and one round, by which any goal may be found that is reached.
const OPTIONS: Options = Options {
    depth: 0,
    batches: 1,
    length: 1,
    stall: 1,
    hop: 0,
    seed: 0,
    lemmas: 1,
    strength: 0,
    rounds: 1,
    proofs: false,
};

/// How many posts and looks there were, and how many nanoseconds they took, beside those to start as many threads as for the posts.
#[derive(Clone, Copy)]
pub struct Counts {
    pub posts: u64,
    pub looks: u64,
    pub posting: u64,
    pub looking: u64,
    pub starting: u64,
}

/// A number from 1 on.
pub fn number(word: &[u8], most: u64) -> Result<u32, Stop>
    requires { most ≤ 1000000 }
    ensures { IfOk result (λ number. (0 < number) × (number ≤ most)) }
{
    match natural(word) {
        Some(number) if number >= 1 && number <= most => Ok(number as u32),
        _ => Err(Stop::Usage),
    }
}

/// A caller for each pass, which is to post for each goal, each from another goal on.
fn callers_of(
    alloc: Global,
    circuit: &Circuit,
    signals: &Signals,
    board: &Board,
    passes: Passes,
) -> Result<Vec<Caller>, Stop>
    requires circuit { signals.now.circuit ≡ circuit.now }
    requires signals { board.now.terms.signals.value ≡ signals.now }
    requires passes { All (IsPassOf board.now) passes.passes }
    requires rounds { HasRounds board.now }
    ensures { IfOk result (λ callers. All (IsReady board.now) callers.items) }
{
    let mut passes = passes;
    let mut callers = Vec::new(alloc);
    let mut first = 0u32;
    while let Some(pass) = passes.pop() {
        let evidence = evidence_from(alloc, circuit, signals, first)?;
        callers.push(Caller {
            pass,
            evidence,
            posts: 0,
            looks: 0,
        })?;
        first = first.saturating_add(128);
    }
    Ok(callers)
}

fn add(counts: &mut Counts, callers: &Vec<Caller>) {
    for caller in callers.as_slice() {
        counts.posts = counts.posts.saturating_add(caller.posts);
        counts.looks = counts.looks.saturating_add(caller.looks);
    }
}

/// The nanoseconds since then.
fn since<R: Clock>(rt: &R, then: &Instant) -> Result<u64, Stop> {
    let took = then.elapsed(rt)?;
    Ok(u64::try_from(took.as_nanos()).unwrap_or(u64::MAX))
}

/// One board: all callers post, then nothing, then they look.
fn round<R: Threads + Sync + Clock>(
    rt: &R,
    alloc: Global,
    circuit: &Circuit,
    signals: &Signals,
    callers: u32,
    looks: u32,
    counts: &mut Counts,
) -> Result<(), Stop>
    requires circuit { signals.now.circuit ≡ circuit.now }
    requires callers { (0 < callers) × (callers ≤ 8) }
{
    let (board, passes) = make_board(alloc, signals, &OPTIONS, callers)?;
    let mut callers = callers_of(alloc, circuit, signals, &board, passes)?;
    let then = Instant::now(rt)?;
    post_in_threads(rt, &board, &mut callers);
    let posting = since(rt, &then)?;
    post_in_threads(rt, &board, &mut callers);
    let starting = since(rt, &then)?.saturating_sub(posting);
    let then = Instant::now(rt)?;
    look_in_threads(rt, &board, &mut callers, signals.goals(), looks);
    let looking = since(rt, &then)?;
    counts.posting = counts.posting.saturating_add(posting);
    counts.starting = counts.starting.saturating_add(starting);
    counts.looking = counts.looking.saturating_add(looking);
    add(counts, &callers);
    Ok(())
}

/// So many boards, one after another.
pub fn rounds<R: Threads + Sync + Clock>(
    rt: &R,
    alloc: Global,
    circuit: &Circuit,
    signals: &Signals,
    callers: u32,
    boards: u32,
    looks: u32,
) -> Result<Counts, Stop>
    requires circuit { signals.now.circuit ≡ circuit.now }
    requires callers { (0 < callers) × (callers ≤ 8) }
{
    let mut counts = Counts {
        posts: 0,
        looks: 0,
        posting: 0,
        looking: 0,
        starting: 0,
    };
    for _ in 0..boards {
        round(rt, alloc, circuit, signals, callers, looks, &mut counts)?;
    }
    Ok(counts)
}
