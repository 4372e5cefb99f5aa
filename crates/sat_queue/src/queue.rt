//! The queue of variables.

ghost use Rattle.std.specs.Prelude.{◌≡◌, ◌<◌, ◌≤◌, length, reverse, slice_get, find, IfOk};
ghost use Rattle.std.specs.List.{range_with_len};
ghost use Rattle.sat_queue.specs.Order.{IsOrder, with_front, from_on, follower, is_unassigned};
ghost use Rattle.sat_queue.specs.Linked.{named};

use crate::links::{links_backward, links_forward, move_front};
use ketch_base::OutOfMemory;
use sat_trail::Trail;
use std::alloc::Global;
use std::marker::Model;

/// All variables in the order in which decisions take them, seen by contracts as their list.
///
/// Variables go from 1 to `vars`, at most 4,000,000. Only `new` takes memory.
#[derive(Debug, Drop)]
pub struct VarQueue {
    next: Vec<u32>,
    prev: Vec<u32>,
}

impl Model for VarQueue {
    ghost use Rattle.std.specs.Prelude.{ℕ, List};
    ghost use Rattle.sat_queue.specs.Linked.{list_of, IsRing};

    ghost Value = { List ℕ };

    ghost view = { λ q. list_of q.next.items };

    ghost invariant = { λ q. IsRing q.next.items q.prev.items (list_of q.next.items) };
}

impl VarQueue {
    /// The list from 1 to this number.
    pub fn new(alloc: Global, vars: u32) -> Result<VarQueue, OutOfMemory>
        requires { vars ≤ 4000000 }
        ensures { IfOk result (λ queue. queue ≡ range_with_len 1 vars) }
    {
        let next = links_forward(alloc, vars)?;
        let prev = links_backward(alloc, vars)?;
        Ok(VarQueue { next, prev })
    }

    /// Says that each variable stands in the order once.
    pub fn is_well_formed(&self)
        ensures { IsOrder self.now }
    {
        let _ = &self.next;
    }

    /// How many variables there are.
    pub fn vars(&self) -> u32
        ensures value { result ≡ length self.now }
        ensures well_formed { IsOrder self.now }
    {
        (self.next.len() - 1) as u32
    }

    /// In constant time.
    pub fn to_front(&mut self, var: u32)
        requires not_zero { 0 < var }
        requires in_range { var ≤ length self.old }
        ensures { self.new ≡ with_front var self.old }
    {
        move_front(&mut self.next, &mut self.prev, var);
    }

    /// None exactly where there is no variable.
    pub fn first(&self) -> Option<u32>
        ensures { result ≡ slice_get self.now 0 }
    {
        named(self.next[0])
    }

    /// None exactly at the last variable.
    pub fn after(&self, var: u32) -> Option<u32>
        requires not_zero { 0 < var }
        requires in_range { var ≤ length self.now }
        ensures { result ≡ follower var self.now }
    {
        named(self.next[var as usize])
    }

    /// None exactly at the first variable.
    pub fn before(&self, var: u32) -> Option<u32>
        requires not_zero { 0 < var }
        requires in_range { var ≤ length self.now }
        ensures { result ≡ follower var (reverse self.now) }
    {
        named(self.prev[var as usize])
    }

    /// The first unassigned variable of the list: None exactly where all are assigned.
    pub fn next_unset(&self, trail: &Trail) -> Option<u32>
        requires { trail.now.vars ≡ length self.now }
        ensures { result ≡ find (is_unassigned trail.now.assignments) self.now }
    {
        let first = self.next[0];
        if first == 0 {
            return None;
        }
        self.next_unset_from(first, trail)
    }

    /// The first unassigned variable from this one on. So a caller that knows all before it to be assigned doesn't pass
    /// over these again.
    pub fn next_unset_from(&self, var: u32, trail: &Trail) -> Option<u32>
        requires not_zero { 0 < var }
        requires in_range { var ≤ length self.now }
        requires vars { trail.now.vars ≡ length self.now }
        ensures { result ≡ find (is_unassigned trail.now.assignments) (from_on var self.now) }
    {
        let mut at = var;
        while at != 0 {
            if trail.level_of(at).is_none() {
                return Some(at);
            }
            at = self.next[at as usize];
        }
        None
    }
}

fn named(link: u32) -> Option<u32>
    ensures { result ≡ named link }
{
    if link == 0 { None } else { Some(link) }
}
