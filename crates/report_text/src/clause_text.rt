//! The lines of clauses over latches, and of certificates.

ghost use Rattle.std.specs.Prelude.{◌≡◌, ◌++◌, ◌∷◌, [], OnOk};
ghost use Rattle.report_text.specs.Text.{line, text, clause_words, clauses_lines, proof_lines, inv_lines, invs_lines};

use crate::report::{Inv, Invs};
use crate::text_writer::TextWriter;
use aig_model::{LatchClause, LatchClauses};
use ketch_base::OutOfMemory;
use lrat_text::Proof;
use std::alloc::Global;

fn write_clause(out: &mut TextWriter, clause: &LatchClause) -> Result<(), OutOfMemory>
    ensures { OnOk result (out.new ≡ out.old ++ line (clause_words clause.now)) }
{
    for literal in clause.as_slice() {
        out.integer(i64::from(*literal))?;
    }
    out.word("0")?;
    out.end_line()?;
    Ok(())
}

pub fn write_clauses(out: &mut TextWriter, clauses: &LatchClauses) -> Result<(), OutOfMemory>
    ensures { OnOk result (out.new ≡ out.old ++ text (clauses_lines clauses.now)) }
{
    for clause in clauses.as_slice() {
        write_clause(out, clause)?;
    }
    Ok(())
}

/// A clause, and the proof that a step keeps it.
fn write_kept(
    alloc: Global,
    out: &mut TextWriter,
    clause: &LatchClause,
    proof: &Proof,
) -> Result<(), OutOfMemory>
    ensures { OnOk result (out.new ≡ out.old ++ text (clause_words clause.now ∷ proof_lines proof.now)) }
{
    write_clause(out, clause)?;
    out.proof(alloc, proof)?;
    Ok(())
}

fn write_inv(alloc: Global, out: &mut TextWriter, inv: &Inv) -> Result<(), OutOfMemory>
    ensures { OnOk result (out.new ≡ out.old ++ text (inv_lines inv.now)) }
{
    out.number_line("inv", &[inv.clauses.len() as u64])?;
    let both = inv.clauses.len().min(inv.kept.len());
    for place in 0..both {
        write_kept(alloc, out, inv.clauses.get(place), inv.kept.get(place))?;
    }
    Ok(())
}

pub fn write_invs(alloc: Global, out: &mut TextWriter, invs: &Invs) -> Result<(), OutOfMemory>
    ensures { OnOk result (out.new ≡ out.old ++ text (invs_lines invs.now)) }
{
    out.number_line("invs", &[invs.len() as u64])?;
    for inv in invs.as_slice() {
        write_inv(alloc, out, inv)?;
    }
    Ok(())
}
