//! Reading a DIMACS text.

ghost use Rattle.std.specs.Prelude.{◌≡◌, ℕ, ◌+◌, ◌<◌, ◌≤◌, ◌^◌, length, IfOk, IfErr, Ok, Err};
ghost use Rattle.text_words.specs.Lines.{lines};
ghost use Rattle.cnf_base.specs.Meaning.{CnfFormula};
ghost use Rattle.cnf_base.specs.Dimacs.{SpellsFormula, IsFirstFault, IsFault, Answers};
ghost use Rattle.cnf_base.specs.Reading.{Gives, found_of, body_of, reading};
ghost use Rattle.cnf_base.specs.declared.fault.DimacsKind.{DimacsKind};

use crate::draft::Draft;
use crate::fault::{DimacsFault, on_line};
use crate::formula::Formula;
use crate::header::{Found, find_header};
use std::alloc::Global;
use text_words::Lines;

/// The formula that the text spells.
pub fn read_dimacs(alloc: Global, bytes: &[u8]) -> Result<Formula, DimacsFault>
    requires { length (lines bytes.now) < 2 ^ 32 }
    ensures formula { IfOk result (SpellsFormula bytes.now) }
    ensures fault { IfErr result (IsFault bytes.now) }

    // Each text that spells a formula is read, and each first fault is answered.
    ensures every_formula { (f : CnfFormula) → SpellsFormula bytes.now f → Answers result (Ok f) }
    ensures every_fault { (line : ℕ) (kind : DimacsKind) → IsFirstFault bytes.now line kind
        → Answers result (Err (DimacsFault.At line kind)) }
{
    read(alloc, bytes)
}

fn read(alloc: Global, bytes: &[u8]) -> Result<Formula, DimacsFault>
    requires { length (lines bytes.now) < 2 ^ 32 }
    ensures { Gives (λ f. f) result (reading bytes.now) }
{
    let found = find_header(Lines::new(bytes))?;
    read_body(alloc, found)
}

fn read_body(alloc: Global, found: Found<'_>) -> Result<Formula, DimacsFault>
    requires lines { found.line + length found.body < 2 ^ 32 }
    requires limit { found.counts.vars ≤ 4000000 }
    ensures { let last = found.entry.line + length found.entry.body in
        Gives (λ f. f) result (body_of last (found_of found.entry)) }
{
    let Found { counts, line, body } = found;
    let mut draft = Draft::new(alloc, counts.vars, counts.clauses);
    let mut number = line;
    for line in body {
        number += 1;
        if let Err(fault) = draft.take_line(line) {
            return Err(on_line(fault, number));
        }
    }
    match draft.finish() {
        Ok(formula) => Ok(formula),
        Err(kind) => Err(DimacsFault::At { line: number, kind }),
    }
}
