//! The seats of a desk.

ghost use Rattle.std.specs.Prelude.{◌≡◌, ◌↔◌, [], ◌∷◌, ◌++◌, ◌<◌, length, IfSome, IfNone, IsNone};

use crate::seat::JobSeat;
use std::marker::Model;

/// The seats of a desk, in the order of their callers' numbers as they are made, with the room of the desk's `Claims`.
#[derive(Drop)]
pub struct JobSeats {
    pub(crate) seats: Vec<JobSeat>,
    // An empty list for each caller.
    pub(crate) lists: Vec<Vec<u32>>,
}

impl Model for JobSeats {
    ghost use Rattle.job_desk.specs.Seats.{JobSeatsState};
    ghost use Rattle.job_desk.specs.Inside.{AreSeats};
    ghost use Rattle.std.specs.Prelude.{length};

    ghost Value = { JobSeatsState };

    ghost view = { λ s. record { seats = s.seats.items; room = length s.lists.items } };

    ghost invariant = { λ s. AreSeats s.seats s.lists };
}

impl JobSeats {
    /// Takes the last seat off.
    pub fn pop(&mut self) -> Option<JobSeat>
        ensures room { self.new.room ≡ self.old.room }
        ensures some { IfSome result (λ seat. self.old.seats ≡ self.new.seats ++ seat ∷ []) }
        ensures none { IfNone result (self.new.seats ≡ self.old.seats) }
        ensures empty { IsNone result ↔ (self.old.seats ≡ []) }
    {
        self.seats.pop()
    }

    /// Puts a seat at the end. Takes no memory.
    pub fn put_back(&mut self, seat: JobSeat)
        requires { length self.old.seats < self.old.room }
        ensures room { self.new.room ≡ self.old.room }
        ensures seats { self.new.seats ≡ self.old.seats ++ seat ∷ [] }
    {
        self.seats.push_reserved(seat);
    }
}
