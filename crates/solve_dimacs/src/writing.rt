//! The answer's text.

ghost use Rattle.std.specs.Prelude.{◌≡◌, ◌++◌, ◌<◌, length, IfOk, OnOk};
ghost use Rattle.solve_dimacs.specs.Written.{answer_text, model_text, value_line};

use aig_model::Bits;
use ketch_base::OutOfMemory;
use lrat_text::write_lrat;
use sat_solver::Answer;
use std::alloc::Global;
use text_words::push_natural;

/// A line for the variable whose value stands at a place: its literal that is true.
fn write_value(text: &mut Vec<u8>, values: &Bits, place: usize) -> Result<(), OutOfMemory>
    requires { place < length values.now }
    ensures { OnOk result (text.new.items ≡ text.old.items ++ value_line values.now place) }
{
    let _ = values.len();
    text.extend_from_slice(if values.get(place) { b"v " } else { b"v -" })?;
    push_natural(text, place as u64 + 1)?;
    text.push(b'\n')?;
    Ok(())
}

/// A line for the status, and one for each variable.
fn write_model(alloc: Global, values: &Bits) -> Result<Vec<u8>, OutOfMemory>
    ensures { IfOk result (λ text. text.items ≡ model_text values.now) }
{
    let mut text = Vec::from_slice(alloc, b"s SATISFIABLE\n")?;
    for place in 0..values.len() {
        write_value(&mut text, values, place)?;
    }
    text.extend_from_slice(b"v 0\n")?;
    Ok(text)
}

/// A model, or the proof.
pub fn text(alloc: Global, answer: &Answer) -> Result<Vec<u8>, OutOfMemory>
    ensures { IfOk result (λ text. text.items ≡ answer_text answer.now) }
{
    match answer {
        Answer::Sat(values) => write_model(alloc, values),
        Answer::Unsat(proof) | Answer::Spent(proof) => write_lrat(alloc, proof),
    }
}
