//! The seats of a pool.

ghost use Rattle.std.specs.Prelude.{◌≡◌, ◌↔◌, [], ◌∷◌, ◌++◌, ◌<◌, length, IfSome, IfNone, IsNone};

use crate::seat::PoolSeat;
use std::marker::Model;

/// The seats of a pool, with the room for what is left when it ends.
#[derive(Drop)]
pub struct PoolSeats<S: Drop> {
    pub(crate) seats: Vec<PoolSeat<S>>,
    pub(crate) left: Vec<S>,
    pub(crate) room: u32,
}

impl<S: Drop> Model for PoolSeats<S> {
    ghost use Rattle.seed_pool.specs.Seats.{PoolSeatsState};
    ghost use Rattle.seed_pool.specs.Inside.{AreSeats};

    ghost Value = { PoolSeatsState S };

    ghost view = { λ s. record { seats = s.seats.items; room = s.room } };

    ghost invariant = { λ s. AreSeats s.seats s.left s.room };
}

impl<S: Drop> PoolSeats<S> {
    /// Takes the last seat off.
    pub fn pop(&mut self) -> Option<PoolSeat<S>>
        ensures room { self.new.room ≡ self.old.room }
        ensures some { IfSome result (λ seat. self.old.seats ≡ self.new.seats ++ seat ∷ []) }
        ensures none { IfNone result (self.new.seats ≡ self.old.seats) }
        ensures empty { IsNone result ↔ (self.old.seats ≡ []) }
    {
        self.seats.pop()
    }

    /// Puts a seat at the end. Takes no memory.
    pub fn put_back(&mut self, seat: PoolSeat<S>)
        requires { length self.old.seats < self.old.room }
        ensures room { self.new.room ≡ self.old.room }
        ensures seats { self.new.seats ≡ self.old.seats ++ seat ∷ [] }
    {
        self.seats.push_reserved(seat);
    }
}
