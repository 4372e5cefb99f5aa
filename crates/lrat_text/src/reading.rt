//! Reading an LRAT text.

ghost use Rattle.std.specs.Prelude.{ℕ, List, ◌<◌, ◌^◌, length, IfOk, IfErr, Ok, Err};
ghost use Rattle.text_words.specs.Lines.{lines};
ghost use Rattle.lrat_text.specs.Lrat.{SpellsProof, IsFirstFault, IsFault, Answers};
ghost use Rattle.lrat_text.specs.Reading.{Gives, reading};
ghost use Rattle.lrat_text.specs.declared.fault.LratKind.{LratKind};
ghost use Rattle.lrat_text.specs.declared.proof.LratStep.{LratStep};

use crate::fault::{LratFault, on_line};
use crate::proof::Proof;
use crate::step::read_step;
use std::alloc::Global;
use text_words::{Lines, Separators, Words};

/// The proof that the text spells.
pub fn read_lrat(alloc: Global, bytes: &[u8]) -> Result<Proof, LratFault>
    requires { length (lines bytes.now) < 2 ^ 32 }
    ensures proof { IfOk result (SpellsProof bytes.now) }
    ensures fault { IfErr result (IsFault bytes.now) }

    // Each text that spells a proof is read, and each first fault is answered.
    ensures every_proof { (p : List LratStep) → SpellsProof bytes.now p → Answers result (Ok p) }
    ensures every_fault { (line : ℕ) (kind : LratKind) → IsFirstFault bytes.now line kind
        → Answers result (Err (LratFault.At line kind)) }
{
    read(alloc, bytes)
}

fn read(alloc: Global, bytes: &[u8]) -> Result<Proof, LratFault>
    requires { length (lines bytes.now) < 2 ^ 32 }
    ensures { Gives (λ p. p) result (reading bytes.now) }
{
    let mut proof = Proof::new(alloc);
    let mut number = 0;
    for line in Lines::new(bytes) {
        number += 1;
        let mut words = Words::of_content(line, Separators::Spaces);
        let Some(first) = words.next() else {
            continue;
        };
        match read_step(alloc, first, words) {
            Ok(step) => proof.push(step)?,
            Err(fault) => return Err(on_line(fault, number)),
        }
    }
    Ok(proof)
}
