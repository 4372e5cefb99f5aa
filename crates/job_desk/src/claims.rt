//! What each caller was answered.

ghost use Rattle.std.specs.Prelude.{◌≡◌, [], ◌<◌, length, slice_index, slice_index_or};

use std::marker::Model;

/// The numbers that each caller of a desk was answered, seen as one list a caller, in the order of the callers' numbers.
#[derive(Drop)]
pub struct Claims {
    pub(crate) lists: Vec<Vec<u32>>,
}

impl Model for Claims {
    ghost use Rattle.std.specs.Prelude.{ℕ, List, ◌<◌, ◌^◌, length, map};
    ghost use Rattle.std.specs.declared.vec.Vec.{Vec};
    ghost use Rattle.job_desk.specs.Inside.{number_lists};

    ghost Value = { List (List ℕ) };

    ghost view = { λ c. number_lists c.lists.items };

    ghost invariant = { λ c. length c.lists.items < 2 ^ 32 };
}

impl Claims {
    /// The number of callers.
    pub fn seats(&self) -> u32
        ensures { result ≡ length self.now }
    {
        self.lists.len() as u32
    }

    /// How many numbers a caller was answered.
    pub fn count(&self, seat: u32) -> usize
        requires { seat < length self.now }
        ensures { result ≡ length (slice_index_or self.now seat []) }
    {
        self.lists[seat as usize].len()
    }

    /// The numbers of a caller, in the order in which it drew them.
    pub fn number(&self, seat: u32, place: usize) -> u32
        requires seat { seat < length self.now }
        requires place { place < length (slice_index_or self.now seat []) }
        ensures { result ≡ slice_index (slice_index_or self.now seat []) place }
    {
        self.lists[seat as usize][place]
    }
}
