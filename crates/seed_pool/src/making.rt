//! How a pool is made.

ghost use Rattle.std.specs.Prelude.{◌≡◌, ◌<◌, ◌≤◌, [], None, IfOk, All};
ghost use Rattle.seed_pool.specs.Seats.{AreAllOf, IsNew};
ghost use Rattle.seed_pool.specs.Inside.{HasCircuit, seat_state};

use crate::of_circuit::OfCircuit;
use crate::pool::SeedPool;
use crate::seat::PoolSeat;
use crate::seats::PoolSeats;
use crate::table::{CELLS, TableSeat, cut, set_up};
use aig_model::Circuit;
use ketch_base::OutOfMemory;
use std::alloc::Global;
use std::snapshot::Snapshot;

/// A pool of free cells for seeds of the circuit, its callers' seats, and all room that later calls need.
pub fn make_pool<S: OfCircuit>(
    alloc: Global,
    circuit: &Circuit,
    callers: u32,
) -> Result<(SeedPool<S>, PoolSeats<S>), OutOfMemory>
    requires some { 0 < callers }
    requires few { callers ≤ 8 }
    ensures pool { IfOk result (λ r. (r.0.circuit ≡ circuit.now) × (r.0.callers ≡ callers)) }
    ensures seats { IfOk result (λ r. AreAllOf r.0 r.1) }
    ensures new { IfOk result (λ r. All IsNew r.1.seats) }
{
    let (table, mut first) = set_up(alloc, circuit, callers)?;
    let left = Vec::with_capacity(alloc, CELLS)?;
    let mut seats = Vec::with_capacity(alloc, callers as usize)?;
    for _ in 1..callers {
        let seat = cut(&table, &mut first);
        seats.push_reserved(seat_of(circuit, seat));
    }
    seats.push_reserved(seat_of(circuit, first));
    Ok((
        SeedPool { table },
        PoolSeats {
            seats,
            left,
            room: callers,
        },
    ))
}

fn seat_of<S: Drop>(circuit: &Circuit, seat: TableSeat<S>) -> PoolSeat<S>
    requires one { seat.me.0.parts ≡ 1 }
    requires idle { (seat.me.1 ≡ []) × (seat.me.0.claim ≡ None) }
    requires circuit { HasCircuit circuit.now seat.me.0 }
    ensures { result ≡ seat_state seat.table_id circuit.now seat.me.0 }
{
    PoolSeat {
        circuit: Snapshot::of(circuit),
        seat,
    }
}
