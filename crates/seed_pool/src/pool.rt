//! The pool.

use crate::of_circuit::OfCircuit;
use crate::table::PoolTable;
use std::marker::Model;

/// 64 cells, each of which is free or holds a seed of one circuit. Threads share it by reference.
#[derive(Drop)]
pub struct SeedPool<S: OfCircuit> {
    pub(crate) table: PoolTable<S>,
}

impl<S: OfCircuit> Model for SeedPool<S> {
    ghost use Rattle.seed_pool.specs.Seats.{PoolState};
    ghost use Rattle.seed_pool.specs.Inside.{pool_state, IsPoolTable};

    ghost Value = { PoolState };

    ghost view = { λ p. pool_state p.table.shared.table_id p.table.shared.key };

    ghost invariant = { λ p. IsPoolTable p.table.shared.table_id p.table.shared.key };
}
