//! Two circuits worked by hand: a toggle, and a latch with enable and reset.

ghost use Rattle.std.specs.Prelude.{◌≡◌, ◌+◌, length, IfOk, IfSome, IsTrue};

use aig_ascii::read_aag;
use aig_eval::{ReplayFault, goal_of, is_legal, next_state, replay, step_values};
use aig_model::{Bits, Circuit, Rows, Signals, Trace};
use ketch_base::OutOfMemory;
use signal_list::read_signals;
use std::alloc::Global;
use std::test::Fail;
use text_words::lines_at_most_bytes;

/// The latch 6 toggles where the input 2 is true, else it keeps its value; where the input 4 is false it is set back.
const ENABLED: &[u8] = b"aag 7 2 1 0 4\n2\n4\n6 8\n12 2 6\n14 3 7\n10 13 15\n8 4 10\n";

/// The latch 2 toggles.
const TOGGLE: &[u8] = b"aag 1 0 1 0 0\n2 3\n";

/// The same, with the constraint that the latch is false.
const HELD: &[u8] = b"aag 1 0 1 0 0 0 1\n2 3\n3\n";

fn bits(alloc: Global, values: &[bool]) -> Result<Bits, OutOfMemory> {
    let mut bits = Bits::new(alloc);
    for value in values {
        bits.push(*value)?;
    }
    Ok(bits)
}

pub fn signals(alloc: Global, text: &[u8], circuit: &Circuit) -> Option<Signals>
    ensures { IfSome result (λ signals. signals.circuit ≡ circuit.now) }
{
    if text.len() >= 10 {
        return None;
    }
    lines_at_most_bytes(text);
    read_signals(alloc, text, circuit).ok()
}

/// A step of `ENABLED` with the goal of the latch and the input 2.
struct Step {
    latch: bool,
    /// Enable and reset.
    row: [bool; 2],
    /// What the latch holds next.
    next: bool,
    goal: u32,
}

const STEPS: [Step; 5] = [
    Step {
        latch: false,
        row: [false, true],
        next: false,
        goal: 0,
    },
    Step {
        latch: false,
        row: [true, true],
        next: true,
        goal: 2,
    },
    Step {
        latch: true,
        row: [false, true],
        next: true,
        goal: 1,
    },
    Step {
        latch: true,
        row: [true, true],
        next: false,
        goal: 3,
    },
    Step {
        latch: true,
        row: [false, false],
        next: false,
        goal: 1,
    },
];

fn values_of(
    alloc: Global,
    circuit: &Circuit,
    state: &Bits,
    row: &Bits,
) -> Result<Bits, OutOfMemory> {
    if state.len() != circuit.latches().len() || row.len() != circuit.inputs().len() {
        return Err(OutOfMemory);
    }
    step_values(alloc, circuit, state, row)
}

fn values_at(alloc: Global, circuit: &Circuit, step: &Step) -> Result<Bits, OutOfMemory> {
    let state = bits(alloc, &[step.latch])?;
    match bits(alloc, &step.row) {
        Ok(row) => values_of(alloc, circuit, &state, &row),
        Err(error) => Err(error),
    }
}

fn hands_on(alloc: Global, circuit: &Circuit, values: &Bits, next: bool) -> bool
    requires { length values.now ≡ circuit.now.top + 1 }
{
    match next_state(alloc, circuit, values) {
        Ok(state) => state.len() == 1 && state.get(0) == next,
        Err(_) => false,
    }
}

fn shows(alloc: Global, circuit: &Circuit, signals: &Signals, values: &Bits, wanted: &Step) -> bool
    requires { signals.now.circuit ≡ circuit.now }
{
    values.len() == circuit.top() as usize + 1
        && is_legal(circuit, values)
        && goal_of(signals, values) == wanted.goal
        && hands_on(alloc, circuit, values, wanted.next)
}

fn is_step(alloc: Global, circuit: &Circuit, signals: &Signals, wanted: &Step) -> bool
    requires { signals.now.circuit ≡ circuit.now }
{
    match values_at(alloc, circuit, wanted) {
        Ok(values) => shows(alloc, circuit, signals, &values, wanted),
        Err(_) => false,
    }
}

#[test]
fn steps_of_enable_and_reset(rt: HostRuntime) -> Result<(), Fail> {
    let circuit = read_aag(rt.alloc(), ENABLED)?;
    let signals = signals(rt.alloc(), b"l0\ni0", &circuit).expect(&rt, "two signals");
    for (place, wanted) in STEPS.iter().enumerate() {
        assert!(rt;
            is_step(rt.alloc(), &circuit, &signals, wanted),
            "row {place}"
        );
    }
    Ok(())
}

/// A trace whose inputs are all false, and the answer with the goal of the latch and its negation.
#[derive(Clone, Copy)]
struct Replay {
    circuit: &'static [u8],
    start: &'static [bool],
    width: u32,
    steps: u32,
    want: Result<u32, ReplayFault>,
}

const PLAIN: Replay = Replay {
    circuit: TOGGLE,
    start: &[false],
    width: 0,
    steps: 1,
    want: Ok(2),
};

const REPLAYS: [Replay; 7] = [
    Replay {
        start: &[],
        want: Err(ReplayFault::Shape),
        ..PLAIN
    },
    Replay {
        width: 1,
        want: Err(ReplayFault::Shape),
        ..PLAIN
    },
    Replay {
        steps: 0,
        want: Err(ReplayFault::Shape),
        ..PLAIN
    },
    Replay {
        start: &[true],
        want: Err(ReplayFault::NotReset { latch: 0 }),
        ..PLAIN
    },
    Replay {
        circuit: HELD,
        steps: 2,
        want: Err(ReplayFault::Constraint { step: 1 }),
        ..PLAIN
    },
    Replay {
        circuit: HELD,
        ..PLAIN
    },
    Replay {
        steps: 2,
        want: Ok(1),
        ..PLAIN
    },
];

fn push_rows(rows: &mut Rows, row: &Bits, steps: u32) -> Result<(), OutOfMemory> {
    for _ in 0..steps {
        if row.len() != rows.width() as usize {
            return Err(OutOfMemory);
        }
        rows.push(row)?;
    }
    Ok(())
}

/// So many rows of so many inputs, all of them false.
fn rows_of(alloc: Global, width: u32, steps: u32) -> Result<Rows, OutOfMemory> {
    let row = Bits::all_false(alloc, width as usize)?;
    let mut rows = Rows::new(alloc, width);
    match push_rows(&mut rows, &row, steps) {
        Ok(()) => Ok(rows),
        Err(error) => Err(error),
    }
}

fn trace_of(alloc: Global, case: &Replay) -> Result<Trace, OutOfMemory> {
    let start = bits(alloc, case.start)?;
    match rows_of(alloc, case.width, case.steps) {
        Ok(rows) => Ok(Trace { start, rows }),
        Err(error) => Err(error),
    }
}

fn replayed(alloc: Global, circuit: &Circuit, trace: &Trace) -> Result<u32, ReplayFault> {
    match signals(alloc, b"n2\nn3", circuit) {
        Some(signals) if trace.rows.len() < 10 => replay(alloc, circuit, &signals, trace),
        _ => Err(ReplayFault::OutOfMemory),
    }
}

fn is_replay(alloc: Global, case: &Replay, trace: &Trace) -> bool {
    match read_aag(alloc, case.circuit) {
        Ok(circuit) => replayed(alloc, &circuit, trace) == case.want,
        Err(_) => false,
    }
}

#[test]
fn replays_of_the_toggle(rt: HostRuntime) -> Result<(), Fail> {
    for (place, case) in REPLAYS.iter().enumerate() {
        let trace = trace_of(rt.alloc(), case)?;
        assert!(rt; is_replay(rt.alloc(), case, &trace), "row {place}");
    }
    Ok(())
}
