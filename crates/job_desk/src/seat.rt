//! A caller's seat at a desk.

ghost use Rattle.std.specs.Prelude.{◌≡◌};

use crate::view::View;
use atomic_table::Seat;
use std::marker::Model;

/// The right of one caller to claim numbers, and the numbers that it was answered.
#[derive(Drop)]
pub struct JobSeat {
    pub(crate) caller: u32,
    pub(crate) numbers: Vec<u32>,
    pub(crate) seat: Seat<(), View>,
}

impl Model for JobSeat {
    ghost use Rattle.job_desk.specs.Seats.{JobSeatState};
    ghost use Rattle.job_desk.specs.Inside.{IsSeat, seat_state};

    ghost Value = { JobSeatState };

    ghost view = { λ s. seat_state s.seat.table_id s.seat.me.0 s.numbers.items };

    ghost invariant = { λ s. IsSeat s.caller s.numbers s.seat.me };
}

impl JobSeat {
    /// Whose seat it is: callers are numbered from 0.
    pub fn caller(&self) -> u32
        ensures { result ≡ self.now.caller }
    {
        self.caller
    }
}
