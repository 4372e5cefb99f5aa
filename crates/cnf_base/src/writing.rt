//! Writing a formula as a DIMACS text.

ghost use Rattle.std.specs.Prelude.{◌≡◌, ◌≢◌, ◌≤◌, ◌++◌, length, pos, IfOk, OnOk};
ghost use Rattle.std.specs.List.{AllByRecursion};
ghost use Rattle.cnf_base.specs.Dimacs.{SpellsFormula};
ghost use Rattle.cnf_base.specs.Text.{formula_text, clause_text, header_text};

use crate::clause::Clause;
use crate::formula::Formula;
use ketch_base::OutOfMemory;
use std::alloc::Global;
use text_words::{push_integer, push_natural};

/// A header, and a line for each clause.
pub fn write_dimacs(alloc: Global, formula: &Formula) -> Result<Vec<u8>, OutOfMemory>
    ensures text { IfOk result (λ text. text.items ≡ formula_text formula.now) }
    ensures reads_back { IfOk result (λ text.
        length formula.now.clauses ≤ 20000000 → SpellsFormula text.items formula.now) }
{
    let mut text = Vec::new(alloc);
    write_header(&mut text, formula.vars(), formula.clauses().len())?;
    for clause in formula.clauses().as_slice() {
        write_clause(&mut text, clause)?;
    }
    Ok(text)
}

fn write_header(text: &mut Vec<u8>, vars: u32, clauses: usize) -> Result<(), OutOfMemory>
    ensures { OnOk result (text.new.items ≡ text.old.items ++ header_text vars clauses) }
{
    text.extend_from_slice(b"p cnf ")?;
    push_natural(text, u64::from(vars))?;
    text.push(b' ')?;
    push_natural(text, clauses as u64)?;
    text.push(b'\n')?;
    Ok(())
}

fn write_clause(text: &mut Vec<u8>, clause: &Clause) -> Result<(), OutOfMemory>
    ensures text { OnOk result (text.new.items ≡ text.old.items ++ clause_text clause.now) }
    ensures not_zero { OnOk result (AllByRecursion (λ l. l ≢ pos 0) clause.now) }
{
    for lit in clause.as_slice() {
        push_integer(text, i64::from(lit.value()))?;
        text.push(b' ')?;
    }
    text.extend_from_slice(b"0\n")?;
    Ok(())
}
