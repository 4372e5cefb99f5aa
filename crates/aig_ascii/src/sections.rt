//! The lines of the sections.

ghost use Rattle.std.specs.Prelude.{◌≡◌, ◌++◌, ◌∷◌, [], map, OnOk, IfOk};
ghost use Rattle.text_words.specs.Text.{next_line, lines_of, after_lines};
ghost use Rattle.aig_ascii.specs.Kinds.{aag_kind};
ghost use Rattle.aig_ascii.specs.Fields.{line_demands};
ghost use Rattle.aig_ascii.specs.Sections.{input, latch, plain, gate, wants_of, used_by, number_at, latch_of, gate_of, lits_of, section_demands, section_uses};
ghost use Rattle.aig_ascii.specs.Drafts.{definers_of, use_of, StandFor};
ghost use Rattle.aig_ascii.specs.FirstFaults.{first_unmet, Says};

use crate::draft::Draft;
use crate::fault::AagFault;
use crate::fields::{end_line, literal, reset};
use aig_model::{AndGate, Latch, Lit, Lits};
use std::alloc::Global;
use text_words::Cursor;

fn read_input(cursor: &mut Cursor<'_>, draft: &mut Draft) -> Result<(), AagFault>
    ensures demands { Says result (first_unmet (line_demands aag_kind (wants_of input draft.old.top (definers_of draft.old) cursor.old) cursor.old)) }
    ensures draft { OnOk result (draft.new ≡ record draft.old { inputs = draft.old.inputs ++ number_at cursor.old 0 ∷ [] }) }
    ensures next { OnOk result (cursor.new ≡ next_line cursor.old) }
{
    let lit = draft.defining(cursor)?;
    end_line(cursor)?;
    draft.add_input(lit)?;
    Ok(())
}

fn read_latch(cursor: &mut Cursor<'_>, draft: &mut Draft) -> Result<(), AagFault>
    ensures demands { Says result (first_unmet (line_demands aag_kind (wants_of latch draft.old.top (definers_of draft.old) cursor.old) cursor.old)) }
    ensures draft { OnOk result (draft.new ≡ record draft.old { latches = draft.old.latches ++ latch_of cursor.old ∷ []; pending = draft.new.pending }) }
    ensures uses { OnOk result (StandFor (definers_of draft.old) draft.new.pending (draft.old.pending ++ map use_of (used_by latch cursor.old))) }
    ensures next { OnOk result (cursor.new ≡ next_line cursor.old) }
{
    let lit = draft.defining(cursor)?;
    let at = cursor.at();
    let next = literal(cursor, draft.top())?;
    let reset = reset(cursor, lit)?;
    end_line(cursor)?;
    draft.note_use(at, next)?;
    draft.add_latch(Latch { lit, next, reset })?;
    Ok(())
}

fn read_plain(cursor: &mut Cursor<'_>, draft: &mut Draft) -> Result<Lit, AagFault>
    ensures demands { Says result (first_unmet (line_demands aag_kind (wants_of plain draft.old.top (definers_of draft.old) cursor.old) cursor.old)) }
    ensures lit { IfOk result (λ lit. lit ≡ number_at cursor.old 0) }
    ensures draft { OnOk result (draft.new ≡ record draft.old { pending = draft.new.pending }) }
    ensures uses { OnOk result (StandFor (definers_of draft.old) draft.new.pending (draft.old.pending ++ map use_of (used_by plain cursor.old))) }
    ensures next { OnOk result (cursor.new ≡ next_line cursor.old) }
{
    let at = cursor.at();
    let lit = literal(cursor, draft.top())?;
    end_line(cursor)?;
    draft.note_use(at, lit)?;
    Ok(lit)
}

fn read_gate(cursor: &mut Cursor<'_>, draft: &mut Draft) -> Result<(), AagFault>
    ensures demands { Says result (first_unmet (line_demands aag_kind (wants_of gate draft.old.top (definers_of draft.old) cursor.old) cursor.old)) }
    ensures draft { OnOk result (draft.new ≡ record draft.old { gates = draft.old.gates ++ gate_of cursor.old ∷ []; pending = draft.new.pending }) }
    ensures uses { OnOk result (StandFor (definers_of draft.old) draft.new.pending (draft.old.pending ++ map use_of (used_by gate cursor.old))) }
    ensures next { OnOk result (cursor.new ≡ next_line cursor.old) }
{
    let lhs = draft.defining(cursor)?;
    let left_at = cursor.at();
    let left = literal(cursor, draft.top())?;
    let right_at = cursor.at();
    let right = literal(cursor, draft.top())?;
    end_line(cursor)?;
    draft.note_use(left_at, left)?;
    draft.note_use(right_at, right)?;
    draft.add_gate(AndGate { lhs, left, right })?;
    Ok(())
}

pub fn read_inputs(cursor: &mut Cursor<'_>, draft: &mut Draft, count: u32) -> Result<(), AagFault>
    ensures demands { Says result (first_unmet (section_demands input count draft.old.top (definers_of draft.old) cursor.old)) }
    ensures draft { OnOk result (draft.new ≡ record draft.old { inputs = draft.old.inputs ++ lits_of count cursor.old }) }
    ensures next { OnOk result (cursor.new ≡ after_lines count cursor.old) }
{
    let mut left = count;
    while left > 0 {
        read_input(cursor, draft)?;
        left -= 1;
    }
    Ok(())
}

pub fn read_latches(cursor: &mut Cursor<'_>, draft: &mut Draft, count: u32) -> Result<(), AagFault>
    ensures demands { Says result (first_unmet (section_demands latch count draft.old.top (definers_of draft.old) cursor.old)) }
    ensures draft { OnOk result (draft.new
        ≡ record draft.old { latches = draft.old.latches ++ map latch_of (lines_of count cursor.old); pending = draft.new.pending }) }
    ensures uses { OnOk result (StandFor (definers_of draft.new) draft.new.pending (draft.old.pending ++ map use_of (section_uses latch count cursor.old))) }
    ensures next { OnOk result (cursor.new ≡ after_lines count cursor.old) }
{
    let mut left = count;
    while left > 0 {
        read_latch(cursor, draft)?;
        left -= 1;
    }
    Ok(())
}

/// The literals of outputs, bad states or constraints.
pub fn read_lits(
    alloc: Global,
    cursor: &mut Cursor<'_>,
    draft: &mut Draft,
    count: u32,
) -> Result<Lits, AagFault>
    ensures demands { Says result (first_unmet (section_demands plain count draft.old.top (definers_of draft.old) cursor.old)) }
    ensures lits { IfOk result (λ lits. lits ≡ lits_of count cursor.old) }
    ensures draft { OnOk result (draft.new ≡ record draft.old { pending = draft.new.pending }) }
    ensures uses { OnOk result (StandFor (definers_of draft.new) draft.new.pending (draft.old.pending ++ map use_of (section_uses plain count cursor.old))) }
    ensures next { OnOk result (cursor.new ≡ after_lines count cursor.old) }
{
    let mut lits = Lits::new(alloc);
    let mut left = count;
    while left > 0 {
        let lit = read_plain(cursor, draft)?;
        lits.push(lit)?;
        left -= 1;
    }
    Ok(lits)
}

pub fn read_gates(cursor: &mut Cursor<'_>, draft: &mut Draft, count: u32) -> Result<(), AagFault>
    ensures demands { Says result (first_unmet (section_demands gate count draft.old.top (definers_of draft.old) cursor.old)) }
    ensures draft { OnOk result (draft.new
        ≡ record draft.old { gates = draft.old.gates ++ map gate_of (lines_of count cursor.old); pending = draft.new.pending }) }
    ensures uses { OnOk result (StandFor (definers_of draft.new) draft.new.pending (draft.old.pending ++ map use_of (section_uses gate count cursor.old))) }
    ensures next { OnOk result (cursor.new ≡ after_lines count cursor.old) }
{
    let mut left = count;
    while left > 0 {
        read_gate(cursor, draft)?;
        left -= 1;
    }
    Ok(())
}
