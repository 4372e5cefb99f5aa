//! The steps on one cell.

ghost use Rattle.std.specs.Prelude.{◌≡◌, ◌≢◌, ◌<◌, [], ◌∷◌, None, Some};
ghost use Rattle.seed_pool.specs.Inside.{HasCircuit};
ghost use Rattle.seed_pool.specs.Rule.{Of, filling, filled, lifting, emptied, missed};

use crate::of_circuit::OfCircuit;
use crate::rule::{ClaimPut, ClaimTake, MarkFree, MarkFull};
use crate::table::{PoolTable, TableSeat};

pub const FREE: u64 = 0;

const FILLING: u64 = 1;

pub const FULL: u64 = 2;

const EMPTYING: u64 = 3;

/// Claims the cell for a put, where it was free. Answers the word as it was.
pub fn claim_put<S: OfCircuit>(table: &PoolTable<S>, seat: &mut TableSeat<S>, cell: usize) -> u64
    requires table { table.now.shared.table_id.words ≡ 64 }
    requires seat { (seat.old.table_id ≡ table.now.shared.table_id) × (0 < seat.old.me.0.parts) × (seat.old.me.0.claim ≡ None) }
    requires cell { cell < 64 }
    ensures seat { seat.new.table_id ≡ seat.old.table_id }
    ensures won { result ≡ 0 → seat.new.me ≡ (filling seat.old.me.0 cell, (cell, None) ∷ seat.old.me.1) }
    ensures lost { result ≢ 0 → seat.new.me ≡ (missed seat.old.me.0 cell result, seat.old.me.1) }
{
    table
        .shared
        .compare_exchange::<ClaimPut>(seat, cell, FREE, FILLING)
}

/// Puts the seed into the slot of the claimed cell, and marks the cell full.
pub fn fill<S: OfCircuit>(table: &PoolTable<S>, seat: &mut TableSeat<S>, cell: usize, seed: S)
    requires table { table.now.shared.table_id.words ≡ 64 }
    requires seat { (seat.old.table_id ≡ table.now.shared.table_id) × (0 < seat.old.me.0.parts) }
    requires claim { (seat.old.me.0.claim ≡ Some (cell, None)) × (seat.old.me.1 ≡ (cell, None) ∷ []) × (cell < 64) }
    requires seed { Of S.circuit table.now.shared.key seed }
    ensures seat { seat.new.table_id ≡ seat.old.table_id }
    ensures view { seat.new.me ≡ (filled seat.old.me.0 seed, []) }
{
    match table.shared.exchange(seat, cell, Some(seed)) {
        None => {}
        Some(_) => unreachable!(),
    }
    table.shared.store::<MarkFull>(seat, cell, FULL);
}

/// Claims the cell with its seed, where it was full. Answers the word as it was.
pub fn claim_take<S: OfCircuit>(table: &PoolTable<S>, seat: &mut TableSeat<S>, cell: usize) -> u64
    requires table { table.now.shared.table_id.words ≡ 64 }
    requires seat { (seat.old.table_id ≡ table.now.shared.table_id) × (0 < seat.old.me.0.parts) × (seat.old.me.0.claim ≡ None) }
    requires terms { HasCircuit table.now.shared.key.circuit.value seat.old.me.0 }
    requires cell { cell < 64 }
    ensures seat { seat.new.table_id ≡ seat.old.table_id }
    ensures won { result ≡ 2 → (s : S) × (seat.new.me ≡ (lifting seat.old.me.0 cell s, (cell, Some s) ∷ seat.old.me.1)) × Of S.circuit table.now.shared.key s }
    ensures lost { result ≢ 2 → seat.new.me ≡ (missed seat.old.me.0 cell result, seat.old.me.1) }
{
    table
        .shared
        .compare_exchange::<ClaimTake>(seat, cell, FULL, EMPTYING)
}

/// Takes the seed out of the slot of the claimed cell, and marks the cell free.
pub fn empty<S: OfCircuit>(table: &PoolTable<S>, seat: &mut TableSeat<S>, cell: usize) -> S
    requires table { table.now.shared.table_id.words ≡ 64 }
    requires seat { (seat.old.table_id ≡ table.now.shared.table_id) × (0 < seat.old.me.0.parts) }
    requires claim { (s : S) × (seat.old.me.0.claim ≡ Some (cell, Some s)) × (seat.old.me.1 ≡ (cell, Some s) ∷ []) × (cell < 64) }
    ensures seat { seat.new.table_id ≡ seat.old.table_id }
    ensures seed { seat.old.me.0.claim ≡ Some (cell, Some result) }
    ensures view { seat.new.me ≡ (emptied seat.old.me.0 result, []) }
{
    let Some(seed) = table.shared.exchange(seat, cell, None) else {
        unreachable!()
    };
    table.shared.store::<MarkFree>(seat, cell, FREE);
    seed
}
