//! The lines of the sections.

ghost use Rattle.std.specs.Prelude.{◌≡◌, ◌+◌, ◌^◌, ◌≤◌, OnOk, IfOk};
ghost use Rattle.aig_model.specs.WellFormed.{limit};
ghost use Rattle.text_words.specs.Text.{next_line, after_lines};
ghost use Rattle.aig_ascii.specs.Fields.{line_demands};
ghost use Rattle.aig_ascii.specs.Sections.{number_at, lits_of};
ghost use Rattle.aig_ascii.specs.FirstFaults.{first_unmet, Says};
ghost use Rattle.aig_binary.specs.Kinds.{aig_kind};
ghost use Rattle.aig_binary.specs.Sections.{lit_wants, latch_wants, latch_of, lits_demands, latches_demands, latches_of};

use crate::fault::AigFault;
use aig_ascii::{end_line, literal, reset};
use aig_model::{Latch, Latches, Lit, Lits};
use std::alloc::Global;
use text_words::Cursor;

fn read_latch(cursor: &mut Cursor<'_>, lit: Lit, top: u32) -> Result<Latch, AigFault>
    requires { top ≤ limit }
    ensures demands { Says result (first_unmet (line_demands aig_kind (latch_wants top lit) cursor.old)) }
    ensures latch { IfOk result (λ latch. latch ≡ latch_of lit cursor.old) }
    ensures next { OnOk result (cursor.new ≡ next_line cursor.old) }
{
    let next = literal(cursor, top)?;
    let reset = reset(cursor, lit)?;
    end_line(cursor)?;
    Ok(Latch { lit, next, reset })
}

/// The latches from the one with this variable on.
pub fn read_latches(
    alloc: Global,
    cursor: &mut Cursor<'_>,
    top: u32,
    first: u32,
    count: u32,
) -> Result<Latches, AigFault>
    requires top { top ≤ limit }
    requires few { first + count ≤ 2 ^ 30 }
    ensures demands { Says result (first_unmet (latches_demands top first count cursor.old)) }
    ensures latches { IfOk result (λ latches. latches ≡ latches_of first count cursor.old) }
    ensures next { OnOk result (cursor.new ≡ after_lines count cursor.old) }
{
    let mut latches = Latches::new(alloc);
    for var in first..first + count {
        let lit = Lit::new(2 * var);
        let latch = read_latch(cursor, lit, top)?;
        latches.push(latch)?;
    }
    Ok(latches)
}

fn read_lit(cursor: &mut Cursor<'_>, top: u32) -> Result<Lit, AigFault>
    requires { top ≤ limit }
    ensures demands { Says result (first_unmet (line_demands aig_kind (lit_wants top) cursor.old)) }
    ensures lit { IfOk result (λ lit. lit ≡ number_at cursor.old 0) }
    ensures next { OnOk result (cursor.new ≡ next_line cursor.old) }
{
    let lit = literal(cursor, top)?;
    end_line(cursor)?;
    Ok(lit)
}

/// The literals of outputs, bad states or constraints.
pub fn read_lits(
    alloc: Global,
    cursor: &mut Cursor<'_>,
    top: u32,
    count: u32,
) -> Result<Lits, AigFault>
    requires { top ≤ limit }
    ensures demands { Says result (first_unmet (lits_demands top count cursor.old)) }
    ensures lits { IfOk result (λ lits. lits ≡ lits_of count cursor.old) }
    ensures next { OnOk result (cursor.new ≡ after_lines count cursor.old) }
{
    let mut lits = Lits::new(alloc);
    let mut left = count;
    while left > 0 {
        let lit = read_lit(cursor, top)?;
        lits.push(lit)?;
        left -= 1;
    }
    Ok(lits)
}
