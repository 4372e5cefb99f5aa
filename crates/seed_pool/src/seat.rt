//! A caller's seat at a pool.

use crate::table::TableSeat;
use aig_model::Circuit;
use std::marker::Model;
use std::snapshot::Snapshot;

/// The right of one caller to put and to take.
#[derive(Drop)]
pub struct PoolSeat<S: Drop> {
    pub(crate) circuit: Snapshot<Circuit>,
    pub(crate) seat: TableSeat<S>,
}

impl<S: Drop> Model for PoolSeat<S> {
    ghost use Rattle.seed_pool.specs.Seats.{PoolSeatState};
    ghost use Rattle.seed_pool.specs.Inside.{seat_state, IsIdle};

    ghost Value = { PoolSeatState S };

    ghost view = { λ s. seat_state s.seat.table_id s.circuit.value s.seat.me.0 };

    ghost invariant = { λ s. IsIdle s.circuit.value s.seat.me };
}
