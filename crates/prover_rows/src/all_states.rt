//! What a plain program that tries all states finds: the greatest invariant, and what it excludes.

use crate::all_steps::{Step, count, digit, is_reset};
use aig_model::{Circuit, LatchClause};
use ketch_base::OutOfMemory;
use std::alloc::Global;

fn is_true(lit: i32, state: u32) -> bool {
    digit(state, lit.unsigned_abs().wrapping_sub(1) as usize) == (lit > 0)
}

fn satisfies(clause: &LatchClause, state: u32) -> bool {
    for lit in clause.as_slice() {
        if is_true(*lit, state) {
            return true;
        }
    }
    false
}

/// Whether the state satisfies the clauses that stay.
pub fn satisfies_all(clauses: &[LatchClause], stays: &[bool], state: u32) -> bool {
    for (clause, stays) in clauses.iter().zip(stays) {
        if *stays && !satisfies(clause, state) {
            return false;
        }
    }
    true
}

/// Drops the clauses that the state doesn't satisfy: whether there is one.
fn drop_broken(clauses: &[LatchClause], stays: &mut [bool], state: u32) -> bool {
    let mut dropped = false;
    for place in 0..stays.len() {
        if stays[place] && place < clauses.len() && !satisfies(&clauses[place], state) {
            stays[place] = false;
            dropped = true;
        }
    }
    dropped
}

/// Drops the clauses that aren't kept by some step before which all hold: whether there is one.
fn drop_unkept(clauses: &[LatchClause], stays: &mut [bool], steps: &[Step]) -> bool {
    let mut dropped = false;
    for step in steps {
        if satisfies_all(clauses, stays, step.state) && drop_broken(clauses, stays, step.next) {
            dropped = true;
        }
    }
    dropped
}

/// Which of the clauses are in the greatest invariant among them.
pub fn greatest(
    alloc: Global,
    circuit: &Circuit,
    clauses: &[LatchClause],
    steps: &[Step],
) -> Result<Vec<bool>, OutOfMemory> {
    let mut stays = vec![in alloc; true; clauses.len()]?;
    'resets: for state in 0..count(circuit.latches().len()) {
        if is_reset(circuit, state) {
            drop_broken(clauses, &mut stays, state);
        }
    }
    'rounds: for _ in 0..clauses.len() {
        if !drop_unkept(clauses, &mut stays, steps) {
            break;
        }
    }
    Ok(stays)
}

/// Whether no step from a state that satisfies the clauses shows the goal.
pub fn is_excluded(clauses: &[LatchClause], stays: &[bool], steps: &[Step], goal: u32) -> bool {
    for step in steps {
        if step.goal == goal && satisfies_all(clauses, stays, step.state) {
            return false;
        }
    }
    true
}
