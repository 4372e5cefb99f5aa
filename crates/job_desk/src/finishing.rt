//! How a desk ends.

ghost use Rattle.std.specs.Prelude.{◌≡◌, ℕ, ◌+◌, ◌<◌, ◌≤◌, [], Some, All, length, slice_get};
ghost use Rattle.job_desk.specs.Lists.{total, times};
ghost use Rattle.job_desk.specs.Seats.{AreAllOf, IsDone};

use crate::claims::Claims;
use crate::desk::JobDesk;
use crate::seat::JobSeat;
use crate::seats::JobSeats;
use crate::table::{close, join};

/// What each caller was answered. Takes no memory.
pub fn finish(desk: JobDesk, seats: JobSeats) -> Claims
    requires all { AreAllOf desk seats }
    ensures callers { length result ≡ desk.callers }
    ensures answered { All (λ seat. slice_get result seat.caller ≡ Some seat.answered) seats.seats }

    // Where each seat was answered None, each number stands in exactly one list, once.
    ensures once { All IsDone seats.seats → (x : ℕ) → x < desk.jobs → total (times x) result ≡ 1 }
{
    let JobSeats {
        mut seats,
        mut lists,
    } = seats;
    let JobDesk { table, jobs: _ } = desk;
    let Some(last) = seats.pop() else {
        unreachable!()
    };
    let JobSeat {
        caller,
        numbers,
        mut seat,
    } = last;
    lists[caller as usize] = numbers;
    while let Some(next) = seats.pop() {
        let JobSeat {
            caller,
            numbers,
            seat: other,
        } = next;
        lists[caller as usize] = numbers;
        join(&table, &mut seat, other);
    }
    close(table, seat);
    Claims { lists }
}
