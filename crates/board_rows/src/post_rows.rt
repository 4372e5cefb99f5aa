//! The board: eight callers on threads of their own.

ghost use Rattle.std.specs.Prelude.{◌≡◌, ℕ, ◌+◌, ◌^◌, ◌≤◌, ◌<◌, [], ◌++◌, All, IfOk, IfSome, OnOk, length, slice_index_or};
ghost use Rattle.goal_board.specs.Passes.{IsPassOf, PassState};
ghost use Rattle.board_rows.specs.Posters.{HasPosted, HasRounds, passes_at_hand};

use crate::posting::{OPTIONS, digits_of, evidence_by, look_at, post_once, signals_of};
use aig_ascii::read_aag;
use aig_model::{Circuit, Kind, Rows, Signals, Trace};
use board_core::{Entry, Verdict, replay_history};
use goal_board::{Board, Gathered, Look, Pass, Passes, gather, make_board};
use inv_cert::Evidence;
use ketch_base::OutOfMemory;
use std::alloc::Global;
use std::sync::atomic::{AtomicU64, Ordering};
use std::test::Fail;
use std::thread;
use std::thread::Threads;

const CALLERS: u32 = 8;

/// In place of a number that wasn't told.
const UNTOLD: u64 = u64::MAX;

/// How many latches and inputs a circuit has, of which the ones or the others are its signals; how many goals there are, how
/// many of them, from 0 on, are posted for, and for how many of these each of eight callers posts.
#[derive(Clone, Copy)]
struct Plan {
    latches: u32,
    inputs: u32,
    goals: u32,
    posted: u32,
    posts: u32,
}

/// A circuit, its signals, and what is posted.
type Row = (&'static [u8], &'static [u8], Plan);

/// A latch with a free reset.
const FREE: &[u8] = b"aag 1 0 1 0 0\n2 2 2\n";

/// All for one goal of two; for four of seven goals each; and nobody.
const ROWS: &[Row] = &[
    (
        FREE,
        b"l0",
        Plan {
            latches: 1,
            inputs: 0,
            goals: 2,
            posted: 1,
            posts: 1,
        },
    ),
    (
        b"aag 3 3 0 0 0\n2\n4\n6\n",
        b"i0\ni1\ni2",
        Plan {
            latches: 0,
            inputs: 3,
            goals: 8,
            posted: 7,
            posts: 4,
        },
    ),
    (
        FREE,
        b"l0",
        Plan {
            latches: 1,
            inputs: 0,
            goals: 2,
            posted: 0,
            posts: 0,
        },
    ),
];

/// One step: the goal's digits are its start, or its inputs.
fn one_step(alloc: Global, plan: Plan, goal: u32) -> Result<Trace, OutOfMemory>
    ensures { IfOk result (λ trace. length trace.rows.rows ≡ 1) }
{
    let start = digits_of(alloc, goal, plan.latches)?;
    let row = digits_of(alloc, goal, plan.inputs)?;
    let mut rows = Rows::new(alloc, plan.inputs);
    rows.push(&row)?;
    Ok(Trace { start, rows })
}

/// The number of the caller's entry for a goal, if all answers are right: it posts for the goal once.
fn post_for(
    alloc: Global,
    circuit: &Circuit,
    signals: &Signals,
    board: &Board,
    pass: &mut Pass,
    plan: Plan,
    goal: u32,
) -> Option<u64>
    requires circuit { signals.now.circuit ≡ circuit.now }
    requires signals { board.now.terms.signals.value ≡ signals.now }
    requires pass { IsPassOf board.now pass.old }
    requires rounds { HasRounds board.now }
    ensures { HasPosted board.now pass.old pass.new }
{
    let trace = one_step(alloc, plan, goal).ok()?;
    let evidence = evidence_by(alloc, circuit, signals, trace)?;
    if evidence.goal() != goal {
        return None;
    }
    let number = post_once(board, pass, evidence)?;
    if pass.may_post(goal) {
        return None;
    }
    Some(number)
}

/// Whether the last goal, for which nobody posts, is pending, and the other isn't unreachable.
fn looks_open(board: &Board, pass: &mut Pass, goals: u32, goal: u32) -> bool
    requires pass { IsPassOf board.now pass.old }
    requires goals { goals ≡ board.now.terms.goals }
    ensures { HasPosted board.now pass.old pass.new }
{
    let last = look_at(board, pass, goals, goals.saturating_sub(1));
    let other = look_at(board, pass, goals, goal);
    last == Some(Look::Unsettled) && other != Some(Look::Settled(Kind::Unreachable))
}

/// The goal of a caller's post.
fn goal_at(plan: Plan, caller: u32, post: u32) -> u32 {
    caller
        .wrapping_add(post)
        .checked_rem(plan.posted)
        .unwrap_or(0)
}

/// Where the number of a caller's post is told.
fn place_of(plan: Plan, caller: u32, post: u32) -> usize {
    caller.wrapping_mul(plan.posts).wrapping_add(post) as usize
}

fn tell(told: &[AtomicU64], place: usize, number: u64) {
    if place < told.len() {
        told[place].store(number, Ordering::SeqCst);
    }
}

/// Looks at some goals in a row and posts for each, and tells the numbers of the entries.
fn post_from(
    alloc: Global,
    circuit: &Circuit,
    signals: &Signals,
    board: &Board,
    pass: &mut Pass,
    plan: Plan,
    caller: usize,
    told: &[AtomicU64],
)
    requires circuit { signals.now.circuit ≡ circuit.now }
    requires signals { board.now.terms.signals.value ≡ signals.now }
    requires pass { IsPassOf board.now pass.old }
    requires rounds { HasRounds board.now }
    requires goals { plan.goals ≡ board.now.terms.goals }
    ensures { HasPosted board.now pass.old pass.new }
{
    let caller = (caller % CALLERS as usize) as u32;
    for post in 0..plan.posts {
        let goal = goal_at(plan, caller, post);
        let open = looks_open(board, pass, plan.goals, goal);
        if let Some(number) = post_for(alloc, circuit, signals, board, pass, plan, goal)
            && open
        {
            tell(told, place_of(plan, caller, post), number);
        }
    }
}

/// Each caller posts on a thread of its own.
fn post_each<R: Threads + Sync>(
    rt: &R,
    alloc: Global,
    circuit: &Circuit,
    signals: &Signals,
    board: &Board,
    passes: &mut [Pass],
    plan: Plan,
    told: &[AtomicU64],
)
    requires circuit { signals.now.circuit ≡ circuit.now }
    requires signals { board.now.terms.signals.value ≡ signals.now }
    requires passes { All (IsPassOf board.now) passes.old }
    requires rounds { HasRounds board.now }
    requires goals { plan.goals ≡ board.now.terms.goals }
    ensures len { length passes.new ≡ length passes.old }
    ensures each { (k : ℕ) (d : PassState) → k < length passes.old → HasPosted board.now (slice_index_or passes.old k d) (slice_index_or passes.new k d) }
{
    thread::for_each_mut(
        rt,
        passes,
        CALLERS as usize,
        &|first, pass: &mut Pass|
            requires { (signals.now.circuit ≡ circuit.now) × (board.now.terms.signals.value ≡ signals.now) × IsPassOf board.now pass.old × HasRounds board.now × (plan.goals ≡ board.now.terms.goals) }
            ensures { HasPosted board.entry.now pass.old pass.new }
        { post_from(alloc, circuit, signals, board, pass, plan, first, told) },
    );
}

fn post_in_threads<R: Threads + Sync>(
    rt: &R,
    alloc: Global,
    circuit: &Circuit,
    signals: &Signals,
    board: &Board,
    passes: &mut Vec<Pass>,
    plan: Plan,
    told: &[AtomicU64],
)
    requires circuit { signals.now.circuit ≡ circuit.now }
    requires signals { board.now.terms.signals.value ≡ signals.now }
    requires passes { All (IsPassOf board.now) passes.old.items }
    requires rounds { HasRounds board.now }
    requires goals { plan.goals ≡ board.now.terms.goals }
    ensures len { length passes.new.items ≡ length passes.old.items }
    ensures each { (k : ℕ) (d : PassState) → k < length passes.old.items
        → HasPosted board.now (slice_index_or passes.old.items k d) (slice_index_or passes.new.items k d) }
{
    post_each(
        rt,
        alloc,
        circuit,
        signals,
        board,
        passes.as_mut_slice(),
        plan,
        told,
    );
}

/// Takes all passes out, in their order.
fn taken_out(alloc: Global, passes: &mut Passes) -> Result<Vec<Pass>, OutOfMemory>
    ensures taken { IfOk result (λ r. r.items ≡ passes.old.passes) }
    ensures empty { OnOk result (passes.new ≡ passes_at_hand [] passes.old.room passes.old.goals) }
{
    let mut taken = Vec::new(alloc);
    while let Some(pass) = passes.pop() {
        taken.insert(0, pass)?;
    }
    Ok(taken)
}

/// Puts passes at the end.
fn put_all_back(passes: &mut Passes, back: Vec<Pass>)
    requires { length passes.old.passes + length back.items ≤ passes.old.room }
    ensures { passes.new ≡ passes_at_hand (passes.old.passes ++ back.items) passes.old.room passes.old.goals }
{
    for pass in back {
        passes.put_back(pass);
    }
}

/// What eight callers post, on a thread for each.
fn gathered<R: Threads + Sync>(
    rt: &R,
    alloc: Global,
    circuit: &Circuit,
    signals: &Signals,
    plan: Plan,
    told: &[AtomicU64],
) -> Result<Gathered, OutOfMemory>
    requires circuit { signals.now.circuit ≡ circuit.now }
    requires goals { plan.goals ≡ 2 ^ length signals.now.lits }
{
    let (board, mut passes) = make_board(alloc, signals, &OPTIONS, CALLERS)?;
    let mut taken = taken_out(alloc, &mut passes)?;
    post_in_threads(rt, alloc, circuit, signals, &board, &mut taken, plan, told);
    put_all_back(&mut passes, taken);
    Ok(gather(board, passes))
}

/// Whether the entry stands at its number, and is for its evidence's goal, which is reached.
fn is_entry(place: usize, entry: &Entry, evidence: &Evidence) -> bool {
    entry.number == place as u64
        && entry.kind == Kind::Reached
        && evidence.kind() == Kind::Reached
        && entry.goal == evidence.goal()
}

/// Whether the history has this many entries, each at its number.
fn has_entries(gathered: &Gathered, count: usize) -> bool {
    let history = gathered.history.as_slice();
    if history.len() != count || gathered.evidence.len() != count {
        return false;
    }
    for place in 0..count {
        if !is_entry(place, &history[place], gathered.evidence.get(place)) {
            return false;
        }
    }
    true
}

/// Whether the entry with the number that a caller was told is that of its post.
fn has_told(history: &[Entry], told: &[AtomicU64], plan: Plan, caller: u32, post: u32) -> bool {
    let place = place_of(plan, caller, post);
    if place >= told.len() {
        return false;
    }
    let number = told[place].load(Ordering::SeqCst) as usize;
    number < history.len()
        && history[number].caller == caller
        && history[number].goal == goal_at(plan, caller, post)
}

/// Whether the history has each post of each caller, at the number that it was told.
fn has_each_post(history: &[Entry], told: &[AtomicU64], plan: Plan) -> bool {
    for caller in 0..CALLERS {
        for post in 0..plan.posts {
            if !has_told(history, told, plan, caller, post) {
                return false;
            }
        }
    }
    true
}

/// Whether the mark is the number of an entry for the goal; None is for no goal that was posted for.
fn is_mark(history: &[Entry], goal: u32, mark: Option<u64>, posted: bool) -> bool {
    match mark {
        None => !posted,
        Some(number) => {
            let place = number as usize;
            posted && place < history.len() && history[place].goal == goal
        }
    }
}

/// Whether the goals that were posted for have marks, and no other.
fn are_marked(gathered: &Gathered, plan: Plan) -> bool {
    let history = gathered.history.as_slice();
    let marks = gathered.marks.as_slice();
    if marks.len() != plan.goals as usize {
        return false;
    }
    for goal in 0..plan.goals {
        if !is_mark(history, goal, marks[goal as usize], goal < plan.posted) {
            return false;
        }
    }
    true
}

/// Whether a replay finds the goals reached that were posted for, and no other.
fn is_replayed(alloc: Global, gathered: &Gathered, plan: Plan) -> bool {
    if gathered.history.len() > 100 {
        return false;
    }
    let Ok(verdicts) = replay_history(alloc, &gathered.history, plan.goals, &OPTIONS) else {
        return false;
    };
    let reached = Verdict::Settled(Kind::Reached);
    verdicts.as_slice().iter().enumerate().all(|(goal, verdict)| (*verdict == reached)
        == (goal < plan.posted as usize))
}

/// A place for the number of each post.
fn untold(alloc: Global, count: u32) -> Result<Vec<AtomicU64>, OutOfMemory> {
    let mut told = Vec::new(alloc);
    for _ in 0..count {
        told.push(AtomicU64::new(UNTOLD))?;
    }
    Ok(told)
}

fn are_gathered<R: Threads + Sync>(
    rt: &R,
    alloc: Global,
    circuit: &Circuit,
    signals: &Signals,
    plan: Plan,
) -> Result<bool, OutOfMemory>
    requires circuit { signals.now.circuit ≡ circuit.now }
    requires goals { plan.goals ≡ 2 ^ length signals.now.lits }
{
    let count = plan.posts.wrapping_mul(CALLERS);
    let told = untold(alloc, count)?;
    let gathered = gathered(rt, alloc, circuit, signals, plan, told.as_slice())?;
    Ok(
        has_entries(&gathered, count as usize)
            && has_each_post(gathered.history.as_slice(), told.as_slice(), plan)
            && are_marked(&gathered, plan)
            && is_replayed(alloc, &gathered, plan),
    )
}

/// Whether eight callers post what the row says.
fn is_row<R: Threads + Sync>(rt: &R, alloc: Global, row: &Row) -> Result<bool, OutOfMemory> {
    let (text, names, plan) = *row;
    let Ok(circuit) = read_aag(alloc, text) else {
        return Ok(false);
    };
    let Some(signals) = signals_of(alloc, names, &circuit) else {
        return Ok(false);
    };
    if signals.goals() != plan.goals {
        return Ok(false);
    }
    are_gathered(rt, alloc, &circuit, &signals, plan)
}

#[test]
fn eight_callers_post_on_threads(rt: HostRuntime) -> Result<(), Fail> {
    for (place, row) in ROWS.iter().enumerate() {
        let held = is_row(&rt, rt.alloc(), row)?;
        assert!(rt; held, "row {place}");
    }
    Ok(())
}
