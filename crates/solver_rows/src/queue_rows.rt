//! The queue of variables beside a plain list, on random moves, and by hand.

use cnf_base::CnfLit;
use rand_core::{Rng, SeedableRng};
use rand_xoshiro::Xoshiro256PlusPlus;
use sat_queue::VarQueue;
use sat_trail::{Trail, Value};
use std::alloc::Global;
use std::process::Abort;
use std::test::Fail;

const VARS: u32 = 9;

fn to_front(rt: &impl Abort, queue: &mut VarQueue, var: u32) {
    assert!(rt; 0 < var && var <= queue.vars());
    queue.to_front(var);
}

fn after(rt: &impl Abort, queue: &VarQueue, var: u32) -> Option<u32> {
    assert!(rt; 0 < var && var <= queue.vars());
    queue.after(var)
}

fn before(rt: &impl Abort, queue: &VarQueue, var: u32) -> Option<u32> {
    assert!(rt; 0 < var && var <= queue.vars());
    queue.before(var)
}

/// Whether the queue is these variables, by its links forward.
fn is_forward(rt: &impl Abort, queue: &VarQueue, plain: &[u32]) -> bool {
    let mut at = queue.first();
    for var in plain {
        if at != Some(*var) {
            return false;
        }
        at = after(rt, queue, *var);
    }
    at.is_none()
}

/// The same by its links backward.
fn is_backward(rt: &impl Abort, queue: &VarQueue, plain: &[u32]) -> bool {
    let mut wanted = None;
    for var in plain {
        if before(rt, queue, *var) != wanted {
            return false;
        }
        wanted = Some(*var);
    }
    true
}

/// The variables from 1 on.
fn plain_list(alloc: Global) -> Result<Vec<u32>, Fail> {
    let mut plain = Vec::new(alloc);
    for var in 0..VARS {
        plain.push(var + 1)?;
    }
    Ok(plain)
}

fn move_plain(plain: &mut Vec<u32>, var: u32) -> Result<(), Fail> {
    if let Some(place) = plain.iter().position(|other| *other == var) {
        plain.remove(place);
    }
    plain.insert(0, var)?;
    Ok(())
}

/// Whether the queue is the list after so many random moves, and after each of them.
fn moves_alike(
    rt: &impl Abort,
    queue: &mut VarQueue,
    plain: &mut Vec<u32>,
    moves: u32,
) -> Result<bool, Fail> {
    let mut words = Xoshiro256PlusPlus::seed_from_u64(7);
    for _ in 0..moves {
        let var = (words.next_u64() % 9) as u32 + 1;
        to_front(rt, queue, var);
        move_plain(plain, var)?;
        if !is_forward(rt, queue, plain) || !is_backward(rt, queue, plain) {
            return Ok(false);
        }
    }
    Ok(true)
}

#[test]
fn moves_as_a_plain_list_does(rt: HostRuntime) -> Result<(), Fail> {
    let mut queue = VarQueue::new(rt.alloc(), VARS)?;
    let mut plain = plain_list(rt.alloc())?;
    assert!(rt; moves_alike(&rt, &mut queue, &mut plain, 300)?);
    Ok(())
}

#[test]
fn moved_variables_stand_in_front(rt: HostRuntime) -> Result<(), Fail> {
    let mut queue = VarQueue::new(rt.alloc(), 4)?;
    for var in [3, 3, 1, 4] {
        to_front(&rt, &mut queue, var);
    }
    assert!(rt; is_forward(&rt, &queue, &[4, 1, 3, 2]));
    assert!(rt; is_backward(&rt, &queue, &[4, 1, 3, 2]));
    Ok(())
}

fn decide(rt: &impl Abort, trail: &mut Trail, value: i32) {
    assert!(rt; value != 0);
    let lit = CnfLit::new(value);
    assert!(rt; lit.var() <= trail.vars());
    let unset = trail.value(lit) == Value::Unset;
    assert!(rt; unset);
    trail.decide(lit);
}

fn is_next(rt: &impl Abort, queue: &VarQueue, trail: &Trail, wanted: Option<u32>) -> bool {
    assert!(rt; trail.vars() == queue.vars());
    queue.next_unset(trail) == wanted
}

/// 3 is first, and stays so until it is assigned.
fn finds_unassigned(rt: &impl Abort, queue: &mut VarQueue, trail: &mut Trail) -> bool {
    to_front(rt, queue, 3);
    let first = is_next(rt, queue, trail, Some(3));
    decide(rt, trail, -3);
    decide(rt, trail, 1);
    let second = is_next(rt, queue, trail, Some(2));
    decide(rt, trail, 2);
    first && second && is_next(rt, queue, trail, None)
}

#[test]
fn the_first_unassigned_is_next(rt: HostRuntime) -> Result<(), Fail> {
    let mut queue = VarQueue::new(rt.alloc(), 3)?;
    let mut trail = Trail::new(rt.alloc(), 3)?;
    assert!(rt; finds_unassigned(&rt, &mut queue, &mut trail));
    Ok(())
}

#[test]
fn no_variable_has_no_next(rt: HostRuntime) -> Result<(), Fail> {
    let queue = VarQueue::new(rt.alloc(), 0)?;
    let trail = Trail::new(rt.alloc(), 0)?;
    assert!(rt; is_forward(&rt, &queue, &[]) && queue.vars() == 0);
    assert!(rt; is_next(&rt, &queue, &trail, None));
    Ok(())
}
