//! How a caller puts and takes.

ghost use Rattle.std.specs.Prelude.{◌≡◌, ◌≢◌, ℕ, ◌<◌, [], ◌∷◌, ◌++◌, IfSome, IfNone, IfErr, OnOk};
ghost use Rattle.seed_pool.specs.Seats.{IsSeatOf, Missed, Grows};

use crate::cells::{FREE, FULL, claim_put, claim_take, empty, fill};
use crate::of_circuit::OfCircuit;
use crate::pool::SeedPool;
use crate::seat::PoolSeat;
use crate::table::CELLS;

impl<S: OfCircuit> SeedPool<S> {
    /// Puts a seed into a free cell; tries the cells once each, in order. Err gives the seed back, where none was
    /// free at the step that tried it. Takes no memory and waits for nobody.
    pub fn put(&self, seat: &mut PoolSeat<S>, seed: S) -> Result<(), S>
        requires seat { IsSeatOf self.now seat.old }
        requires seed { S.circuit seed ≡ self.now.circuit }
        ensures same { (seat.new.table ≡ seat.old.table) × (seat.new.circuit ≡ seat.old.circuit) }
        ensures taken { seat.new.taken ≡ seat.old.taken }
        ensures tried { Grows seat.old.tried seat.new.tried }
        ensures ok { OnOk result (seat.new.put ≡ seat.old.put ++ seed ∷ []) }
        ensures err { IfErr result (λ back. (back ≡ seed) × (seat.new.put ≡ seat.old.put) × Missed 0 64 seat.old.tried seat.new.tried) }
    {
        let mut offered = seed;
        for cell in 0..CELLS {
            match self.put_at(seat, cell, offered) {
                Ok(()) => return Ok(()),
                Err(back) => offered = back,
            }
        }
        Err(offered)
    }

    /// Takes a seed out of a full cell; tries the cells once each, in order. None comes where none was full at the
    /// step that tried it. Takes no memory and waits for nobody.
    pub fn take(&self, seat: &mut PoolSeat<S>) -> Option<S>
        requires { IsSeatOf self.now seat.old }
        ensures same { (seat.new.table ≡ seat.old.table) × (seat.new.circuit ≡ seat.old.circuit) }
        ensures put { seat.new.put ≡ seat.old.put }
        ensures tried { Grows seat.old.tried seat.new.tried }
        ensures some { IfSome result (λ seed. (S.circuit seed ≡ self.now.circuit) × (seat.new.taken ≡ seat.old.taken ++ seed ∷ [])) }
        ensures none { IfNone result ((seat.new.taken ≡ seat.old.taken) × Missed 2 64 seat.old.tried seat.new.tried) }
    {
        for cell in 0..CELLS {
            if let Some(seed) = self.take_at(seat, cell) {
                return Some(seed);
            }
        }
        None
    }

    /// Tries one cell.
    fn put_at(&self, seat: &mut PoolSeat<S>, cell: usize, seed: S) -> Result<(), S>
        requires seat { IsSeatOf self.now seat.old }
        requires cell { cell < 64 }
        requires seed { S.circuit seed ≡ self.now.circuit }
        ensures same { (seat.new.table ≡ seat.old.table) × (seat.new.circuit ≡ seat.old.circuit) }
        ensures taken { seat.new.taken ≡ seat.old.taken }
        ensures ok { OnOk result ((seat.new.put ≡ seat.old.put ++ seed ∷ []) × (seat.new.tried ≡ seat.old.tried ++ (cell, 0) ∷ [])) }
        ensures err { IfErr result (λ back. (back ≡ seed) × (seat.new.put ≡ seat.old.put) × ((n : ℕ) × (n ≢ 0) × (seat.new.tried ≡ seat.old.tried ++ (cell, n) ∷ []))) }
    {
        if claim_put(&self.table, &mut seat.seat, cell) != FREE {
            return Err(seed);
        }
        fill(&self.table, &mut seat.seat, cell, seed);
        Ok(())
    }

    /// Tries one cell.
    fn take_at(&self, seat: &mut PoolSeat<S>, cell: usize) -> Option<S>
        requires seat { IsSeatOf self.now seat.old }
        requires cell { cell < 64 }
        ensures same { (seat.new.table ≡ seat.old.table) × (seat.new.circuit ≡ seat.old.circuit) }
        ensures put { seat.new.put ≡ seat.old.put }
        ensures some { IfSome result (λ seed. (S.circuit seed ≡ self.now.circuit) × (seat.new.taken ≡ seat.old.taken ++ seed ∷ []) × (seat.new.tried ≡ seat.old.tried ++ (cell, 2) ∷ [])) }
        ensures none { IfNone result ((seat.new.taken ≡ seat.old.taken) × ((n : ℕ) × (n ≢ 2) × (seat.new.tried ≡ seat.old.tried ++ (cell, n) ∷ []))) }
    {
        if claim_take(&self.table, &mut seat.seat, cell) != FULL {
            return None;
        }
        Some(empty(&self.table, &mut seat.seat, cell))
    }
}
