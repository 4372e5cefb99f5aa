//! How a pool ends.

ghost use Rattle.std.specs.Prelude.{◌≡◌, ℕ, ◌+◌, All};
ghost use Rattle.seed_pool.specs.Lists.{total};
ghost use Rattle.seed_pool.specs.Seats.{AreAllOf, PoolSeatState};

use crate::of_circuit::OfCircuit;
use crate::pool::SeedPool;
use crate::seat::PoolSeat;
use crate::seats::PoolSeats;
use crate::table::{close, join};
use ketch_base::Sequence;

/// What is left in the cells, in their order. Takes no memory.
pub fn end_pool<S: OfCircuit>(pool: SeedPool<S>, seats: PoolSeats<S>) -> Sequence<S>
    requires { AreAllOf pool seats }

    // However seeds are weighed: so each seed was put as often as it was taken or is left.
    ensures balance { (weight : S → ℕ) → total (λ (seat : PoolSeatState S). total weight seat.put) seats.seats
        ≡ total (λ (seat : PoolSeatState S). total weight seat.taken) seats.seats + total weight result }
    ensures circuit { All (λ seed. S.circuit seed ≡ pool.circuit) result }
{
    let PoolSeats {
        mut seats,
        left,
        room: _,
    } = seats;
    let SeedPool { table } = pool;
    let Some(last) = seats.pop() else {
        unreachable!()
    };
    let PoolSeat {
        circuit: _,
        mut seat,
    } = last;
    while let Some(next) = seats.pop() {
        let PoolSeat {
            circuit: _,
            seat: other,
        } = next;
        join(&table, &mut seat, other);
    }
    Sequence::from_vec(close(table, seat, left))
}
