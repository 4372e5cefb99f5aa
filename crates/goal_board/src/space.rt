//! The room in which posts are gathered.

ghost use Rattle.std.specs.Prelude.{◌*◌, ◌≤◌, IfOk};
ghost use Rattle.goal_board.specs.Inside.{IsSpace};

use crate::pass::Posted;
use board_core::Entry;
use inv_cert::Evidence;
use ketch_base::OutOfMemory;
use std::alloc::Global;

// Reserved when a board is made, so that its end takes no memory.
#[derive(Drop)]
pub(crate) struct Space {
    // The posts, pass by pass.
    pub(crate) posts: Vec<Posted>,
    // The posts, each at its number.
    pub(crate) places: Vec<Option<Posted>>,
    pub(crate) history: Vec<Entry>,
    pub(crate) evidence: Vec<Evidence>,
    pub(crate) marks: Vec<Option<u64>>,
}

/// Room for the posts of so many callers.
pub(crate) fn make_space(alloc: Global, callers: u32, goals: u32) -> Result<Space, OutOfMemory>
    requires { callers ≤ 8 }
    ensures { IfOk result (λ space. IsSpace space (callers * goals) goals) }
{
    let posts = callers as usize * goals as usize;
    Ok(Space {
        posts: Vec::with_capacity(alloc, posts)?,
        places: Vec::with_capacity(alloc, posts)?,
        history: Vec::with_capacity(alloc, posts)?,
        evidence: Vec::with_capacity(alloc, posts)?,
        marks: Vec::with_capacity(alloc, goals as usize)?,
    })
}
