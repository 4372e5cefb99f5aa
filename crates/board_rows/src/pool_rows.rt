//! The pool of seeds: one caller that fills and drains it, and eight callers on threads of their own.

ghost use Rattle.std.specs.Prelude.{◌≡◌, ℕ, ◌<◌, [], All, IfOk, OnOk, length, slice_index_or};
ghost use Rattle.aig_model.specs.WellFormed.{IsSized};
ghost use Rattle.seed_pool.specs.Seats.{AreAllOf, IsSeatOf};
ghost use Rattle.board_rows.specs.declared.pool_rows.Worker.{Worker};

use aig_model::{BuildFault, Circuit, Gates, Latches, Lits, Names, Parts};
use ketch_base::{OutOfMemory, Sequence};
use seed_pool::{OfCircuit, PoolSeat, PoolSeats, SeedPool, end_pool, make_pool};
use std::alloc::Global;
use std::snapshot::Snapshot;
use std::test::Fail;
use std::thread;
use std::thread::Threads;

const CALLERS: u32 = 8;

/// How many seeds each caller puts.
const SEEDS: u32 = 40;

const ALL: usize = 320;

/// Stands for a seed.
#[derive(Drop)]
struct Ball {
    number: u32,
    circuit: Snapshot<Circuit>,
}

impl OfCircuit for Ball {
    ghost circuit = { λ ball. ball.circuit.value };
}

fn make_ball(circuit: &Circuit, number: u32) -> Ball
    ensures { result.circuit.value ≡ circuit.now }
{
    Ball {
        number,
        circuit: Snapshot::of(circuit),
    }
}

fn no_parts(alloc: Global) -> Parts
    ensures sized { IsSized result }
    ensures names { result.names ≡ [] }
{
    Parts {
        top: 0,
        inputs: Lits::new(alloc),
        latches: Latches::new(alloc),
        outputs: Lits::new(alloc),
        bads: Lits::new(alloc),
        constraints: Lits::new(alloc),
        gates: Gates::new(alloc),
        names: Names::new(alloc),
    }
}

/// A circuit of the constant alone.
fn constant(alloc: Global) -> Result<Circuit, BuildFault> {
    let parts = no_parts(alloc);
    Circuit::build(alloc, parts)
}

/// Whether a seed with this number is put.
fn puts(pool: &SeedPool<Ball>, seat: &mut PoolSeat<Ball>, circuit: &Circuit, number: u32) -> bool
    requires seat { IsSeatOf pool.now seat.old }
    requires circuit { circuit.now ≡ pool.now.circuit }
    ensures { IsSeatOf pool.now seat.new }
{
    match pool.put(seat, make_ball(circuit, number)) {
        Ok(()) => true,
        Err(_) => false,
    }
}

/// Whether the seed with this number comes back.
fn gives_back(
    pool: &SeedPool<Ball>,
    seat: &mut PoolSeat<Ball>,
    circuit: &Circuit,
    number: u32,
) -> bool
    requires seat { IsSeatOf pool.now seat.old }
    requires circuit { circuit.now ≡ pool.now.circuit }
    ensures { IsSeatOf pool.now seat.new }
{
    match pool.put(seat, make_ball(circuit, number)) {
        Ok(()) => false,
        Err(back) => back.number == number,
    }
}

/// Whether the seed that is taken has this number.
fn takes(pool: &SeedPool<Ball>, seat: &mut PoolSeat<Ball>, number: u32) -> bool
    requires { IsSeatOf pool.now seat.old }
    ensures { IsSeatOf pool.now seat.new }
{
    match pool.take(seat) {
        None => false,
        Some(taken) => taken.number == number,
    }
}

/// Whether the pool takes 64 seeds and no more, and gives as many.
fn fills_and_drains(pool: &SeedPool<Ball>, seat: &mut PoolSeat<Ball>, circuit: &Circuit) -> bool
    requires seat { IsSeatOf pool.now seat.old }
    requires circuit { circuit.now ≡ pool.now.circuit }
{
    for number in 0..64 {
        if !puts(pool, seat, circuit, number) {
            return false;
        }
    }
    if !gives_back(pool, seat, circuit, 64) {
        return false;
    }
    for number in 0..64 {
        if !takes(pool, seat, number) {
            return false;
        }
    }
    pool.take(seat).is_none()
}

/// Whether the first caller of a new pool fills and drains it.
fn one_caller(alloc: Global, circuit: &Circuit) -> Result<bool, OutOfMemory> {
    let (pool, mut seats) = make_pool::<Ball>(alloc, circuit, 1)?;
    match seats.pop() {
        None => Ok(false),
        Some(mut seat) => Ok(fills_and_drains(&pool, &mut seat, circuit)),
    }
}

#[test]
fn a_pool_has_64_cells(rt: HostRuntime) -> Result<(), Fail> {
    let circuit = constant(rt.alloc())?;
    let held = one_caller(rt.alloc(), &circuit)?;
    assert!(rt; held);
    Ok(())
}

/// A caller, and how often it has each of the seeds in the end.
#[derive(Drop)]
struct Worker {
    seat: PoolSeat<Ball>,
    number: u32,
    has: Vec<u32>,
}

/// One more of the seed.
fn note(has: &mut [u32], ball: Ball) {
    let place = ball.number as usize;
    if place < has.len() {
        has[place] = has[place].saturating_add(1);
    }
}

/// Puts a seed, and after every second takes one.
fn trade_once(
    pool: &SeedPool<Ball>,
    circuit: &Circuit,
    seat: &mut PoolSeat<Ball>,
    has: &mut [u32],
    number: u32,
)
    requires seat { IsSeatOf pool.now seat.old }
    requires circuit { circuit.now ≡ pool.now.circuit }
    ensures { IsSeatOf pool.now seat.new }
{
    if let Err(back) = pool.put(seat, make_ball(circuit, number)) {
        note(has, back);
    }
    if number % 2 == 0 {
        return;
    }
    if let Some(taken) = pool.take(seat) {
        note(has, taken);
    }
}

/// Puts its seeds, and takes half as many.
fn trade(pool: &SeedPool<Ball>, circuit: &Circuit, worker: &mut Worker)
    requires worker { IsSeatOf pool.now worker.old.seat }
    requires circuit { circuit.now ≡ pool.now.circuit }
    ensures { IsSeatOf pool.now worker.new.seat }
{
    let first = worker.number.wrapping_mul(SEEDS);
    for k in 0..SEEDS {
        trade_once(
            pool,
            circuit,
            &mut worker.seat,
            worker.has.as_mut_slice(),
            first.wrapping_add(k),
        );
    }
}

/// Each trades on a thread of its own.
fn trade_each<R: Threads + Sync>(
    rt: &R,
    pool: &SeedPool<Ball>,
    circuit: &Circuit,
    workers: &mut [Worker],
)
    requires workers { All (λ (w : Worker). IsSeatOf pool.now w.seat) workers.old }
    requires circuit { circuit.now ≡ pool.now.circuit }
    ensures len { length workers.new ≡ length workers.old }
    ensures each { (k : ℕ) (d : Worker) → k < length workers.old → IsSeatOf pool.now (slice_index_or workers.new k d).seat }
{
    thread::for_each_mut(
        rt,
        workers,
        8,
        &|_, worker: &mut Worker|
            requires { IsSeatOf pool.now worker.old.seat × (circuit.now ≡ pool.now.circuit) }
            ensures { IsSeatOf pool.entry.now worker.new.seat }
        { trade(pool, circuit, worker) },
    );
}

fn trade_in_threads<R: Threads + Sync>(
    rt: &R,
    pool: &SeedPool<Ball>,
    circuit: &Circuit,
    workers: &mut Vec<Worker>,
)
    requires workers { All (λ (w : Worker). IsSeatOf pool.now w.seat) workers.old.items }
    requires circuit { circuit.now ≡ pool.now.circuit }
    ensures len { length workers.new.items ≡ length workers.old.items }
    ensures each { All (λ (w : Worker). IsSeatOf pool.now w.seat) workers.new.items }
{
    trade_each(rt, pool, circuit, workers.as_mut_slice());
}

fn make_worker(alloc: Global, seat: PoolSeat<Ball>, number: u32) -> Result<Worker, OutOfMemory>
    ensures { IfOk result (λ w. w.seat ≡ seat) }
{
    let has = vec![in alloc; 0; ALL]?;
    Ok(Worker { seat, number, has })
}

/// A worker for each seat.
fn workers_of(
    alloc: Global,
    pool: &SeedPool<Ball>,
    seats: &mut PoolSeats<Ball>,
) -> Result<Vec<Worker>, OutOfMemory>
    requires { AreAllOf pool.now seats.old }
    ensures workers { IfOk result (λ ws. All (λ (w : Worker). IsSeatOf pool.now w.seat) ws.items) }
    ensures count { IfOk result (λ ws. length ws.items ≡ pool.now.callers) }
    ensures seats { OnOk result ((seats.new.seats ≡ []) × (seats.new.room ≡ pool.now.callers)) }
{
    let mut workers = Vec::new(alloc);
    let mut number = 0u32;
    while let Some(seat) = seats.pop() {
        let next = make_worker(alloc, seat, number)?;
        workers.push(next)?;
        number = number.wrapping_add(1);
    }
    Ok(workers)
}

/// Adds up, place by place.
fn add(tally: &mut [u32], has: &[u32]) {
    for (sum, count) in tally.iter_mut().zip(has) {
        *sum = sum.saturating_add(*count);
    }
}

/// Puts the seats back, and adds up what the workers have.
fn put_back_all(
    pool: &SeedPool<Ball>,
    seats: &mut PoolSeats<Ball>,
    workers: Vec<Worker>,
    tally: &mut [u32],
)
    requires workers { All (λ (w : Worker). IsSeatOf pool.now w.seat) workers.items }
    requires count { length workers.items ≡ pool.now.callers }
    requires seats { (seats.old.seats ≡ []) × (seats.old.room ≡ pool.now.callers) }
    ensures { AreAllOf pool.now seats.new }
{
    for worker in workers {
        let Worker {
            seat,
            number: _,
            has,
        } = worker;
        add(tally, has.as_slice());
        seats.put_back(seat);
    }
}

fn note_all(tally: &mut [u32], left: Sequence<Ball>) {
    for ball in left.into_vec() {
        note(tally, ball);
    }
}

/// Whether each seed was taken by one worker, came back to one, or is left, once.
fn each_once<R: Threads + Sync>(
    rt: &R,
    alloc: Global,
    circuit: &Circuit,
) -> Result<bool, OutOfMemory> {
    let (pool, mut seats) = make_pool::<Ball>(alloc, circuit, CALLERS)?;
    let mut workers = workers_of(alloc, &pool, &mut seats)?;
    trade_in_threads(rt, &pool, circuit, &mut workers);
    let mut tally = [0u32; ALL];
    put_back_all(&pool, &mut seats, workers, &mut tally);
    let left = end_pool(pool, seats);
    note_all(&mut tally, left);
    Ok(tally.iter().all(|count| *count == 1))
}

#[test]
fn each_seed_is_somewhere_once(rt: HostRuntime) -> Result<(), Fail> {
    let circuit = constant(rt.alloc())?;
    let held = each_once(&rt, rt.alloc(), &circuit)?;
    assert!(rt; held);
    Ok(())
}
