//! What the rows are made of: circuits, signals, and lists of clauses to compare with.

ghost use Rattle.std.specs.Prelude.{◌≡◌, IfSome};

use aig_model::{Circuit, LatchClauses, Signals};
use signal_list::read_signals;
use std::alloc::Global;
use text_words::lines_at_most_bytes;

/// Two latches that take each other's value; the first starts at 1.
pub const RING: &[u8] = b"aag 2 0 2 0 0\n2 4 1\n4 2\n";

/// A one walks through three latches.
pub const CHAIN: &[u8] = b"aag 3 0 3 0 0\n2 1\n4 2\n6 4\n";

pub fn signals(alloc: Global, text: &[u8], circuit: &Circuit) -> Option<Signals>
    ensures { IfSome result (λ signals. signals.circuit ≡ circuit.now) }
{
    if text.len() >= 10 {
        return None;
    }
    lines_at_most_bytes(text);
    read_signals(alloc, text, circuit).ok()
}

/// Whether these are the clauses, in this order.
pub fn are_clauses(clauses: &LatchClauses, expected: &[&[i32]]) -> bool {
    let clauses = clauses.as_slice();
    if clauses.len() != expected.len() {
        return false;
    }
    for place in 0..clauses.len() {
        if clauses[place].as_slice() != expected[place] {
            return false;
        }
    }
    true
}
