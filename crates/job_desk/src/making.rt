//! How a desk is made.

ghost use Rattle.std.specs.Prelude.{◌≡◌, ◌<◌, ◌≤◌, [], None, IfOk, length, map};
ghost use Rattle.std.specs.List.{range_with_len};
ghost use Rattle.std.specs.Vec.{vec_capacity};
ghost use Rattle.job_desk.specs.Seats.{new_seat, AreAllOf};
ghost use Rattle.job_desk.specs.Inside.{IsFreshView, AreEmpty, seat_state};

use crate::desk::JobDesk;
use crate::seat::JobSeat;
use crate::seats::JobSeats;
use crate::table::{cut, set_up};
use crate::view::View;
use atomic_table::Seat;
use ketch_base::OutOfMemory;
use std::alloc::Global;

/// A desk for the numbers 0 to `jobs - 1`, and its callers' seats, with the room that they need.
pub fn make_desk(alloc: Global, jobs: u32, callers: u32) -> Result<(JobDesk, JobSeats), OutOfMemory>
    requires some { 0 < callers }
    requires few { callers ≤ 8 }
    ensures desk { IfOk result (λ r. (r.0.jobs ≡ jobs) × (r.0.callers ≡ callers)) }
    ensures seats { IfOk result (λ r. r.1.seats ≡ map (new_seat r.0) (range_with_len 0 callers)) }
    ensures all { IfOk result (λ r. AreAllOf r.0 r.1) }
{
    let lists = empty_lists(alloc, callers)?;
    let mut seats = Vec::with_capacity(alloc, callers as usize)?;
    let (table, mut first) = set_up(alloc, jobs, callers)?;
    for caller in 1..callers {
        let seat = cut(&table, &mut first);
        seats.push_reserved(seat_of(alloc, caller, jobs, seat)?);
    }
    seats.insert(0, seat_of(alloc, 0, jobs, first)?)?;
    Ok((JobDesk { table, jobs }, JobSeats { seats, lists }))
}

/// An empty list for each caller.
fn empty_lists(alloc: Global, callers: u32) -> Result<Vec<Vec<u32>>, OutOfMemory>
    ensures len { IfOk result (λ lists. length lists.items ≡ callers) }
    ensures empty { IfOk result (λ lists. AreEmpty lists.items) }
{
    let mut lists = Vec::with_capacity(alloc, callers as usize)?;
    for _ in 0..callers {
        lists.push_reserved(Vec::new(alloc));
    }
    Ok(lists)
}

/// A caller's seat, with room for all numbers.
fn seat_of(
    alloc: Global,
    caller: u32,
    jobs: u32,
    seat: Seat<(), View>,
) -> Result<JobSeat, OutOfMemory>
    requires fresh { IsFreshView caller jobs seat.me.0 }
    requires slots { seat.me.1 ≡ [] }
    ensures { IfOk result (λ s. s ≡ seat_state seat.table_id seat.me.0 []) }
{
    let numbers = Vec::with_capacity(alloc, jobs as usize)?;
    Ok(JobSeat {
        caller,
        numbers,
        seat,
    })
}
