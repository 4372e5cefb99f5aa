//! Writing a proof as an LRAT text.

ghost use Rattle.std.specs.Prelude.{◌≡◌, ◌++◌, IfOk, OnOk};
ghost use Rattle.std.specs.List.{AllByRecursion, flat_map};
ghost use Rattle.lrat_text.specs.Lrat.{SpellsProof, IsLiteral};
ghost use Rattle.lrat_text.specs.Text.{proof_text, step_text, id_text, number_text, IsWritable, HasLiterals};
ghost use Rattle.lrat_text.specs.declared.proof.LratStep.TheVariants.{Add, Delete};

use crate::proof::{Hints, Ids, LratStep, Proof};
use cnf_base::Clause;
use ketch_base::OutOfMemory;
use std::alloc::Global;
use text_words::{push_integer, push_natural};

/// A line for each step.
pub fn write_lrat(alloc: Global, proof: &Proof) -> Result<Vec<u8>, OutOfMemory>
    ensures text { IfOk result (λ text. text.items ≡ proof_text proof.now) }
    ensures reads_back { IfOk result (λ text. IsWritable proof.now → SpellsProof text.items proof.now) }
{
    let mut text = Vec::new(alloc);
    for step in proof.as_slice() {
        write_step(&mut text, step)?;
    }
    Ok(text)
}

fn write_step(text: &mut Vec<u8>, step: &LratStep) -> Result<(), OutOfMemory>
    ensures text { OnOk result (text.new.items ≡ text.old.items ++ step_text step.now) }
    ensures literals { OnOk result (HasLiterals step.now) }
{
    match step {
        LratStep::Add { id, lits, hints } => write_addition(text, *id, lits, hints),
        LratStep::Delete { at, ids } => write_deletion(text, *at, ids),
    }
}

fn write_addition(
    text: &mut Vec<u8>,
    id: u64,
    lits: &Clause,
    hints: &Hints,
) -> Result<(), OutOfMemory>
    ensures text { OnOk result (text.new.items ≡ text.old.items ++ step_text (Add id lits.now hints.now)) }
    ensures literals { OnOk result (AllByRecursion IsLiteral lits.now) }
{
    write_id(text, id)?;
    write_literals(text, lits)?;
    text.extend_from_slice(b"0 ")?;
    write_hints(text, hints)?;
    text.extend_from_slice(b"0\n")?;
    Ok(())
}

fn write_deletion(text: &mut Vec<u8>, at: u64, ids: &Ids) -> Result<(), OutOfMemory>
    ensures { OnOk result (text.new.items ≡ text.old.items ++ step_text (Delete at ids.now)) }
{
    write_id(text, at)?;
    text.extend_from_slice(b"d ")?;
    for id in ids.as_slice() {
        write_id(text, *id)?;
    }
    text.extend_from_slice(b"0\n")?;
    Ok(())
}

fn write_id(text: &mut Vec<u8>, id: u64) -> Result<(), OutOfMemory>
    ensures { OnOk result (text.new.items ≡ text.old.items ++ id_text id) }
{
    push_natural(text, id)?;
    text.push(b' ')?;
    Ok(())
}

fn write_literals(text: &mut Vec<u8>, lits: &Clause) -> Result<(), OutOfMemory>
    ensures text { OnOk result (text.new.items ≡ text.old.items ++ flat_map number_text lits.now) }
    ensures literals { OnOk result (AllByRecursion IsLiteral lits.now) }
{
    for lit in lits.as_slice() {
        push_integer(text, i64::from(lit.value()))?;
        text.push(b' ')?;
    }
    Ok(())
}

fn write_hints(text: &mut Vec<u8>, hints: &Hints) -> Result<(), OutOfMemory>
    ensures { OnOk result (text.new.items ≡ text.old.items ++ flat_map number_text hints.now) }
{
    for hint in hints.as_slice() {
        push_integer(text, *hint)?;
        text.push(b' ')?;
    }
    Ok(())
}
