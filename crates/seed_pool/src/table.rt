//! The steps on the pool's table that make and end seats.

ghost use Rattle.std.specs.Prelude.{◌≡◌, ℕ, ◌+◌, ◌<◌, ◌≤◌, [], None, IfOk, All};
ghost use Rattle.std.specs.Vec.{vec_capacity};
ghost use Rattle.seed_pool.specs.Lists.{total};
ghost use Rattle.seed_pool.specs.Rule.{Of, first, rest_of, new_caller, joined};

use crate::of_circuit::OfCircuit;
use crate::rule::{CutOff, PoolRule, TakeIn};
use crate::slots::drained;
use crate::view::{Terms, View};
use aig_model::Circuit;
use atomic_table::{Seat, Table};
use ketch_base::OutOfMemory;
use std::alloc::Global;
use std::snapshot::Snapshot;

pub const CELLS: usize = 64;

pub type PoolTable<S> = Table<Option<S>, View<S>, Terms, PoolRule, Global>;

pub type TableSeat<S> = Seat<Option<S>, View<S>>;

/// The table of a pool with free cells, and the first caller's seat, which stands for all callers.
pub fn set_up<S: OfCircuit>(
    alloc: Global,
    circuit: &Circuit,
    callers: u32,
) -> Result<(PoolTable<S>, TableSeat<S>), OutOfMemory>
    requires { 0 < callers }
    ensures table { IfOk result (λ r. (r.0.shared.table_id.words ≡ 64) × (r.0.shared.table_id.slots ≡ 64)) }
    ensures terms { IfOk result (λ r. (r.0.shared.key.circuit.value ≡ circuit.now) × (r.0.shared.key.callers ≡ callers)) }
    ensures seat { IfOk result (λ r. (r.1.table_id ≡ r.0.shared.table_id) × (r.1.me ≡ (first r.0.shared.key, []))) }
{
    let terms = Terms {
        circuit: Snapshot::of(circuit),
        callers: u64::from(callers),
    };
    let opened = Table::<Option<S>, View<S>, Terms, PoolRule, Global>::vacant(
        alloc,
        &[0; CELLS],
        CELLS,
        &terms,
    )?;
    Ok(opened)
}

/// A seat for one more caller.
pub fn cut<S: OfCircuit>(table: &PoolTable<S>, first: &mut TableSeat<S>) -> TableSeat<S>
    requires table { table.now.shared.table_id.words ≡ 64 }
    requires seat { first.old.table_id ≡ table.now.shared.table_id }
    requires parts { 1 < first.old.me.0.parts }
    ensures first { (first.new.table_id ≡ first.old.table_id) × (first.new.me ≡ (rest_of first.old.me.0, first.old.me.1)) }
    ensures seat { (result.table_id ≡ first.old.table_id) × (result.me ≡ (new_caller first.old.me.0, [])) }
{
    table.shared.split_seat::<CutOff>(first)
}

/// The first seat takes in the other.
pub fn join<S: OfCircuit>(table: &PoolTable<S>, seat: &mut TableSeat<S>, other: TableSeat<S>)
    requires table { table.now.shared.table_id.words ≡ 64 }
    requires seat { (seat.old.table_id ≡ table.now.shared.table_id) × (0 < seat.old.me.0.parts) }
    requires other { (other.table_id ≡ table.now.shared.table_id) × (other.me.1 ≡ []) × (other.me.0.claim ≡ None) }
    ensures { (seat.new.table_id ≡ seat.old.table_id) × (seat.new.me ≡ (joined seat.old.me.0 other.me.0, seat.old.me.1)) }
{
    table.shared.join_seat::<TakeIn>(seat, other);
}

/// Ends the table, where one seat stands for all callers, and gives what is left in the cells.
pub fn close<S: OfCircuit>(table: PoolTable<S>, seat: TableSeat<S>, left: Vec<S>) -> Vec<S>
    requires table { table.shared.table_id.slots ≡ 64 }
    requires seat { (seat.table_id ≡ table.shared.table_id) × (seat.me.0.parts ≡ table.shared.key.callers) × (seat.me.0.claim ≡ None) }
    requires room { (left.items ≡ []) × (64 ≤ vec_capacity left) }
    ensures balance { (weight : S → ℕ) → total weight seat.me.0.put ≡ total weight seat.me.0.taken + total weight result.items }
    ensures circuit { All (Of S.circuit table.shared.key) result.items }
{
    drained(table.close_with(seat), left)
}
