//! The links of a list that is in order, and how a variable leaves its place and comes to the front.

ghost use Rattle.std.specs.Prelude.{◌≡◌, ℕ, ◌+◌, ◌<◌, ◌≤◌, length, slice_index, slice_set, IfOk};
ghost use Rattle.sat_queue.specs.Order.{with_front};
ghost use Rattle.sat_queue.specs.Linked.{list_of, IsRing};

use ketch_base::OutOfMemory;
use std::alloc::Global;

/// To each variable the next one, to 0 the first, and to the last one 0.
pub fn links_forward(alloc: Global, vars: u32) -> Result<Vec<u32>, OutOfMemory>
    requires { vars ≤ 4000000 }
    ensures room { IfOk result (λ next. length next.items ≡ vars + 1) }
    ensures each { IfOk result (λ next. (v : ℕ) → v < vars → slice_index next.items v ≡ v + 1) }
    ensures last { IfOk result (λ next. slice_index next.items vars ≡ 0) }
{
    let mut next = vec![in alloc; 0; vars as usize + 1]?;
    for var in 0..vars {
        next[var as usize] = var + 1;
    }
    Ok(next)
}

/// To each variable the one before it, to 0 the last, and to the first one 0.
pub fn links_backward(alloc: Global, vars: u32) -> Result<Vec<u32>, OutOfMemory>
    requires { vars ≤ 4000000 }
    ensures room { IfOk result (λ prev. length prev.items ≡ vars + 1) }
    ensures each { IfOk result (λ prev. (v : ℕ) → v < vars → slice_index prev.items (v + 1) ≡ v) }
    ensures last { IfOk result (λ prev. slice_index prev.items 0 ≡ vars) }
{
    let mut prev = vec![in alloc; vars; vars as usize + 1]?;
    for var in 0..vars {
        prev[var as usize + 1] = var;
    }
    Ok(prev)
}

/// Brings a variable of the ring to the front.
pub fn move_front(next: &mut [u32], prev: &mut [u32], var: u32)
    requires ring { IsRing next.old prev.old (list_of next.old) }
    requires not_zero { 0 < var }
    requires in_range { var ≤ length (list_of next.old) }
    ensures ring { IsRing next.new prev.new (list_of next.new) }
    ensures list { list_of next.new ≡ with_front var (list_of next.old) }
{
    unlink(next, prev, var);
    link_front(next, prev, var);
}

/// Takes a variable out of the ring.
fn unlink(next: &mut [u32], prev: &mut [u32], var: u32)
    requires var_next { var < length next.old }
    requires var_prev { var < length prev.old }
    requires before { slice_index prev.old var < length next.old }
    requires after { slice_index next.old var < length prev.old }
    ensures next { next.new ≡ slice_set next.old (slice_index prev.old var) (slice_index next.old var) }
    ensures prev { prev.new ≡ slice_set prev.old (slice_index next.old var) (slice_index prev.old var) }
{
    let before = prev[var as usize];
    let after = next[var as usize];
    next[before as usize] = after;
    prev[after as usize] = before;
}

/// Puts a variable between 0 and the first one.
fn link_front(next: &mut [u32], prev: &mut [u32], var: u32)
    requires zero { 0 < length next.old }
    requires var_next { var < length next.old }
    requires var_prev { var < length prev.old }
    requires first { slice_index next.old 0 < length prev.old }
    ensures next { next.new ≡ slice_set (slice_set next.old 0 var) var (slice_index next.old 0) }
    ensures prev { prev.new ≡ slice_set (slice_set prev.old (slice_index next.old 0) var) var 0 }
{
    let first = next[0];
    next[0] = var;
    next[var as usize] = first;
    prev[first as usize] = var;
    prev[var as usize] = 0;
}
