//! The job desk: one caller, and eight callers on threads of their own.

ghost use Rattle.std.specs.Prelude.{◌≡◌, ℕ, ◌+◌, ◌≤◌, ◌<◌, [], ◌++◌, All, IfOk, OnOk, length, slice_index_or};
ghost use Rattle.job_desk.specs.Seats.{JobSeatState};
ghost use Rattle.board_rows.specs.Callers.{IsReady, HasClaimed, listed};

use job_desk::{Claims, JobDesk, JobSeat, JobSeats, finish, make_desk};
use ketch_base::OutOfMemory;
use std::alloc::Global;
use std::test::Fail;
use std::thread;
use std::thread::Threads;

/// Takes all seats out, in their order.
fn taken_out(alloc: Global, seats: &mut JobSeats) -> Result<Vec<JobSeat>, OutOfMemory>
    ensures taken { IfOk result (λ r. r.items ≡ seats.old.seats) }
    ensures empty { OnOk result (seats.new ≡ listed [] seats.old.room) }
{
    let mut taken = Vec::new(alloc);
    while let Some(seat) = seats.pop() {
        taken.insert(0, seat)?;
    }
    Ok(taken)
}

/// Claims until None.
fn claim_all(desk: &JobDesk, seat: &mut JobSeat)
    requires { IsReady desk.now seat.old }
    ensures { HasClaimed seat.old seat.new }
{
    while desk.claim(seat).is_some() {}
}

/// Each claims until None, on a thread of its own.
fn claim_each<R: Threads + Sync>(rt: &R, desk: &JobDesk, seats: &mut [JobSeat])
    requires { All (IsReady desk.now) seats.old }
    ensures len { length seats.new ≡ length seats.old }
    ensures each { (k : ℕ) (d : JobSeatState) → k < length seats.old → HasClaimed (slice_index_or seats.old k d) (slice_index_or seats.new k d) }
{
    thread::for_each_mut(
        rt,
        seats,
        8,
        &|_, seat: &mut JobSeat|
            requires { IsReady desk.now seat.old }
            ensures { HasClaimed seat.old seat.new }
        { claim_all(desk, seat) },
    );
}

fn claim_in_threads<R: Threads + Sync>(rt: &R, desk: &JobDesk, seats: &mut Vec<JobSeat>)
    requires { All (IsReady desk.now) seats.old.items }
    ensures len { length seats.new.items ≡ length seats.old.items }
    ensures each { (k : ℕ) (d : JobSeatState) → k < length seats.old.items
        → HasClaimed (slice_index_or seats.old.items k d) (slice_index_or seats.new.items k d) }
{
    claim_each(rt, desk, seats.as_mut_slice());
}

/// Puts seats at the end.
fn put_all_back(seats: &mut JobSeats, back: Vec<JobSeat>)
    requires { length seats.old.seats + length back.items ≤ seats.old.room }
    ensures { seats.new ≡ listed (seats.old.seats ++ back.items) seats.old.room }
{
    for seat in back {
        seats.put_back(seat);
    }
}

/// Marks the numbers of a caller; false where one was marked before, or isn't a job's.
fn mark_all(marks: &mut [bool], claims: &Claims, caller: u32) -> bool
    requires { caller < length claims.now }
{
    for place in 0..claims.count(caller) {
        let number = claims.number(caller, place) as usize;
        if number >= marks.len() || marks[number] {
            return false;
        }
        marks[number] = true;
    }
    true
}

/// Whether each number stands in exactly one list of so many, once.
fn each_once(marks: &mut [bool], claims: &Claims, callers: u32) -> bool {
    for caller in 0..claims.seats() {
        if !mark_all(marks, claims, caller) {
            return false;
        }
    }
    claims.seats() == callers && marks.iter().all(|mark| *mark)
}

/// What the callers of a desk are answered, on a thread for each.
fn claimed<R: Threads + Sync>(
    rt: &R,
    alloc: Global,
    jobs: u32,
    callers: u32,
) -> Result<Claims, OutOfMemory>
    requires some { 0 < callers }
    requires few { callers ≤ 8 }
{
    let (desk, mut seats) = make_desk(alloc, jobs, callers)?;
    let mut taken = taken_out(alloc, &mut seats)?;
    claim_in_threads(rt, &desk, &mut taken);
    put_all_back(&mut seats, taken);
    Ok(finish(desk, seats))
}

/// Whether the one caller's numbers are 0, 1 and 2, in this order.
fn are_three_in_order(claims: &Claims) -> bool {
    claims.seats() == 1
        && claims.count(0) == 3
        && claims.number(0, 0) == 0
        && claims.number(0, 1) == 1
        && claims.number(0, 2) == 2
}

#[test]
fn three_jobs_come_to_one_caller_in_order(rt: HostRuntime) -> Result<(), Fail> {
    let claims = claimed(&rt, rt.alloc(), 3, 1)?;
    let held = are_three_in_order(&claims);
    assert!(rt; held);
    Ok(())
}

#[test]
fn each_number_comes_to_one_of_eight_threads(rt: HostRuntime) -> Result<(), Fail> {
    let claims = claimed(&rt, rt.alloc(), 1000, 8)?;
    let mut marks = [false; 1000];
    let held = each_once(&mut marks, &claims, 8);
    assert!(rt; held);
    Ok(())
}

/// Whether no caller of so many has a number.
fn are_empty(claims: &Claims, callers: u32) -> bool {
    for caller in 0..claims.seats() {
        if claims.count(caller) != 0 {
            return false;
        }
    }
    claims.seats() == callers
}

#[test]
fn nobody_claims(rt: HostRuntime) -> Result<(), Fail> {
    let (desk, seats) = make_desk(rt.alloc(), 3, 2)?;
    let claims = finish(desk, seats);
    let held = are_empty(&claims, 2);
    assert!(rt; held);
    Ok(())
}
