//! What a plain program that tries all states finds: the least step at which each goal is reached.

use crate::all_steps::{Step, count, is_reset};
use aig_model::Circuit;
use ketch_base::OutOfMemory;
use std::alloc::Global;

/// The marks of the reset states.
fn resets(alloc: Global, circuit: &Circuit) -> Result<Vec<bool>, OutOfMemory> {
    let mut marks = Vec::new(alloc);
    for state in 0..count(circuit.latches().len()) {
        marks.push(is_reset(circuit, state))?;
    }
    Ok(marks)
}

fn is_marked(marks: &[bool], state: u32) -> bool {
    (state as usize) < marks.len() && marks[state as usize]
}

fn mark(marks: &mut [bool], state: u32) {
    if (state as usize) < marks.len() {
        marks[state as usize] = true;
    }
}

/// The marks of the states one step after the marked ones; the goals on the way have this step, if none before.
fn after(
    alloc: Global,
    now: &[bool],
    steps: &[Step],
    step: u32,
    first: &mut [Option<u32>],
) -> Result<Vec<bool>, OutOfMemory> {
    let mut next = vec![in alloc; false; now.len()]?;
    for taken in steps {
        let goal = taken.goal as usize;
        if is_marked(now, taken.state) {
            mark(&mut next, taken.next);
            if goal < first.len() && first[goal].is_none() {
                first[goal] = Some(step);
            }
        }
    }
    Ok(next)
}

/// The least step at which each goal is reached, within the depth.
pub fn first_steps(
    alloc: Global,
    circuit: &Circuit,
    steps: &[Step],
    goals: u32,
    depth: u32,
) -> Result<Vec<Option<u32>>, OutOfMemory> {
    let mut first = vec![in alloc; None; goals as usize]?;
    let mut now = resets(alloc, circuit)?;
    for step in 0..depth.saturating_add(1) {
        now = after(alloc, &now, steps, step, &mut first)?;
    }
    Ok(first)
}
