//! All steps of a small circuit: each state with each row of inputs. States and goals are numbers, whose digit of
//! weight 2^k is latch k or signal k.

ghost use Rattle.std.specs.Prelude.{◌≡◌, ◌<◌, length, IfOk};

use aig_eval::{goal_of, is_legal, next_state, step_values};
use aig_model::{Bits, Circuit, Reset, Signals};
use ketch_base::OutOfMemory;
use std::alloc::Global;

/// A step that the constraints allow.
#[derive(Clone, Copy, Debug)]
pub struct Step {
    pub state: u32,
    pub goal: u32,
    pub next: u32,
}

/// How many numbers have so many digits; 256 from eight on.
pub fn count(digits: usize) -> u32 {
    1u32 << (if digits < 8 { digits as u32 } else { 8 })
}

pub fn digit(number: u32, place: usize) -> bool {
    place < 32 && (number >> (place as u32 % 32)) & 1 == 1
}

fn bits_of(alloc: Global, number: u32, width: usize) -> Result<Bits, OutOfMemory>
    ensures { IfOk result (λ bits. length bits ≡ width) }
{
    let mut bits = Bits::all_false(alloc, width)?;
    for place in 0..width {
        bits.set(place, digit(number, place));
    }
    Ok(bits)
}

fn number_of(bits: &Bits) -> u32 {
    let mut number = 0u32;
    for place in (0..bits.len()).rev() {
        number = number
            .wrapping_mul(2)
            .wrapping_add(u32::from(bits.get(place)));
    }
    number
}

fn take_step(
    alloc: Global,
    circuit: &Circuit,
    signals: &Signals,
    state: u32,
    row: u32,
) -> Result<Option<Step>, OutOfMemory>
    requires { signals.now.circuit ≡ circuit.now }
{
    let latches = bits_of(alloc, state, circuit.latches().len())?;
    let inputs = bits_of(alloc, row, circuit.inputs().len())?;
    let values = step_values(alloc, circuit, &latches, &inputs)?;
    if !is_legal(circuit, &values) {
        return Ok(None);
    }
    let next = next_state(alloc, circuit, &values)?;
    Ok(Some(Step {
        state,
        goal: goal_of(signals, &values),
        next: number_of(&next),
    }))
}

fn push_steps_from(
    alloc: Global,
    circuit: &Circuit,
    signals: &Signals,
    state: u32,
    steps: &mut Vec<Step>,
) -> Result<(), OutOfMemory>
    requires { signals.now.circuit ≡ circuit.now }
{
    for row in 0..count(circuit.inputs().len()) {
        if let Some(step) = take_step(alloc, circuit, signals, state, row)? {
            steps.push(step)?;
        }
    }
    Ok(())
}

pub fn all_steps(
    alloc: Global,
    circuit: &Circuit,
    signals: &Signals,
) -> Result<Vec<Step>, OutOfMemory>
    requires { signals.now.circuit ≡ circuit.now }
{
    let mut steps = Vec::new(alloc);
    for state in 0..count(circuit.latches().len()) {
        push_steps_from(alloc, circuit, signals, state, &mut steps)?;
    }
    Ok(steps)
}

/// Whether the circuit may start in the state.
pub fn is_reset(circuit: &Circuit, state: u32) -> bool {
    let latches = circuit.latches();
    for place in 0..latches.len() {
        let agrees = match latches.get(place).reset {
            Reset::Zero => !digit(state, place),
            Reset::One => digit(state, place),
            Reset::Free => true,
        };
        if !agrees {
            return false;
        }
    }
    true
}
