//! What the rows are made of: signals from texts, and goals that are settled.

ghost use Rattle.std.specs.Prelude.{ℕ, ◌≡◌, ◌<◌, ◌^◌, length, All, IfOk, IfSome};

use aig_model::{Bits, Circuit, Goals, Signals};
use ketch_base::OutOfMemory;
use signal_list::read_signals;
use std::alloc::Global;
use text_words::lines_at_most_bytes;

pub fn signals(alloc: Global, text: &[u8], circuit: &Circuit) -> Option<Signals>
    ensures { IfSome result (λ signals. signals.circuit ≡ circuit.now) }
{
    if text.len() >= 10 {
        return None;
    }
    lines_at_most_bytes(text);
    read_signals(alloc, text, circuit).ok()
}

/// Goal 0, or no goal.
pub fn goals(alloc: Global, zero: bool) -> Result<Goals, OutOfMemory>
    ensures { IfOk result (λ goals. (signals : ℕ) → All (λ goal. goal < 2 ^ signals) goals) }
{
    let mut goals = Goals::new(alloc);
    if zero {
        goals.push(0)?;
    }
    Ok(goals)
}

/// A value for each goal, true for goal 0 where it is known.
pub fn known(alloc: Global, signals: &Signals, zero: bool) -> Result<Bits, OutOfMemory>
    ensures { IfOk result (λ known. length known ≡ 2 ^ length signals.now.lits) }
{
    let mut known = Bits::all_false(alloc, signals.goals() as usize)?;
    if zero && !known.is_empty() {
        known.set(0, true);
    }
    Ok(known)
}
