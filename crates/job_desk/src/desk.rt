//! The desk, and how a caller claims a number.

ghost use Rattle.std.specs.Prelude.{◌≡◌, ℕ, ◌<◌, ◌≤◌, [], ◌∷◌, ◌++◌, None, Some, IfSome, IfNone, length};

use crate::rule::DrawOne;
use crate::seat::JobSeat;
use crate::table::DeskTable;
use std::marker::Model;

/// Numbers from 0 on, of which each is given to one caller.
#[derive(Drop)]
pub struct JobDesk {
    pub(crate) table: DeskTable,
    pub(crate) jobs: u32,
}

impl Model for JobDesk {
    ghost use Rattle.std.specs.Prelude.{◌≡◌};
    ghost use Rattle.job_desk.specs.Seats.{JobDeskState};
    ghost use Rattle.job_desk.specs.Inside.{desk_state, IsDeskTable};

    ghost Value = { JobDeskState };

    ghost view = { λ d. desk_state d.table.shared.table_id d.table.shared.key };

    ghost invariant = { λ d. IsDeskTable d.jobs d.table.shared.table_id d.table.shared.key };
}

impl JobDesk {
    /// Draws the next number: the answer where it is below `jobs`, and else None.
    ///
    /// Takes no memory and waits for nobody.
    pub fn claim(&self, seat: &mut JobSeat) -> Option<u32>
        requires of_desk { seat.old.desk ≡ self.now }
        requires early { seat.old.over ≡ None }
        ensures same { (seat.new.desk ≡ seat.old.desk) × (seat.new.caller ≡ seat.old.caller) }
        ensures some { IfSome result (λ n. (n < self.now.jobs) × (seat.new.answered ≡ seat.old.answered ++ n ∷ []) × (seat.new.over ≡ None)) }
        ensures none { IfNone result ((seat.new.answered ≡ seat.old.answered) × ((n : ℕ) × (seat.new.over ≡ Some n) × (self.now.jobs ≤ n))) }

        // So a caller that claims until None ends.
        ensures few { IfSome result (λ _. length seat.new.answered ≤ self.now.jobs) }
    {
        let number = self.table.shared.fetch_add::<DrawOne>(&mut seat.seat, 0, 1);
        if number < u64::from(self.jobs) {
            seat.numbers.push_reserved(number as u32);
            Some(number as u32)
        } else {
            None
        }
    }
}
