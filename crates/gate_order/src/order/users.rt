//! For each place the places that use it on one side, as linked lists in two flat arrays.

ghost use Rattle.std.specs.Prelude.{◌≡◌, ◌+◌, ◌-◌, ◌<◌, ◌≤◌, ◌^◌, length, slice_index, replicate, IfOk};
ghost use Rattle.gate_order.specs.UserLists.{IsLastUser, AreLinked, AreWithin};

use ketch_base::OutOfMemory;
use std::alloc::Global;
use std::marker::Model;
use std::snapshot::Snapshot;

/// The users of each place. They count from 1 here, so that 0 ends a list.
#[derive(Drop)]
pub struct Users {
    uses: Snapshot<Vec<u32>>,
    lasts: Vec<u32>,
    earlier: Vec<u32>,
}

impl Model for Users {
    ghost use Rattle.std.specs.Prelude.{List, ℕ, length};
    ghost use Rattle.gate_order.specs.UserLists.{AreLinked};

    ghost Value = { List ℕ };

    ghost view = { λ u. u.uses.value.items };

    ghost invariant = { λ u. AreLinked u.uses.value.items (length u.uses.value.items) u.lasts.items u.earlier.items };
}

/// Links the users of each place, the later ones first.
fn link(uses: &[u32], lasts: &mut [u32], earlier: &mut [u32])
    requires within { AreWithin uses.now }
    requires few { length uses.now < 2 ^ 32 }
    requires lasts { lasts.old ≡ replicate (length uses.now) 0 }
    requires earlier { length earlier.old ≡ length uses.now }
    ensures { AreLinked uses.now (length uses.now) lasts.new earlier.new }
{
    for (user, named) in uses.iter().enumerate() {
        if *named != 0 {
            let place = *named as usize - 1;
            earlier[user] = lasts[place];
            lasts[place] = user as u32 + 1;
        }
    }
}

impl Users {
    pub fn new(alloc: Global, uses: &Vec<u32>) -> Result<Users, OutOfMemory>
        requires within { AreWithin uses.now.items }
        requires few { length uses.now.items < 2 ^ 32 }
        ensures { IfOk result (λ users. users ≡ uses.now.items) }
    {
        let mut lasts = vec![in alloc; 0u32; uses.len()]?;
        let mut earlier = vec![in alloc; 0u32; uses.len()]?;
        link(uses.as_slice(), &mut lasts, &mut earlier);
        Ok(Users {
            uses: Snapshot::of(uses),
            lasts,
            earlier,
        })
    }

    /// The last user of a place, counted from 1; 0 where it has none.
    pub fn last(&self, place: usize) -> u32
        requires { place < length self.now }
        ensures { IsLastUser self.now (length self.now) place result }
    {
        self.lasts[place]
    }

    /// The last user before this one of the place that this one uses, counted from 1; 0 where there is none.
    pub fn earlier(&self, user: usize) -> u32
        requires { 0 < slice_index self.now user }
        ensures { IsLastUser self.now user (slice_index self.now user - 1) result }
    {
        self.earlier[user]
    }
}
