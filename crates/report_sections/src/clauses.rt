//! Clauses over latches, and certificates.

ghost use Rattle.std.specs.Prelude.{◌≡◌, [], codes, IfOk};
ghost use Rattle.report_text.specs.Form.{IsCounted, FitsInv};
ghost use Rattle.report_text.specs.Text.{invs_lines};
ghost use Rattle.report_lines.specs.Words.{Takes, until};
ghost use Rattle.report_lines.specs.Reading.{Gives, line_read};
ghost use Rattle.report_sections.specs.Pieces.{Reads};
ghost use Rattle.report_sections.specs.Proofs.{literal_of, clause_of};
ghost use Rattle.report_sections.specs.Certs.{clauses_read, inv_read, invs_read};

use crate::items::{ItemReader, read_items, read_section};
use crate::proof::{literal, read_proof};
use aig_model::{LatchClause, LatchClauses};
use ketch_base::OutOfMemory;
use lrat_text::Proofs;
use report_lines::{LineWords, ReportFault, TextLines, last, read_count};
use report_text::{Inv, Invs};
use std::alloc::Global;

/// The literals up to a 0.
fn take_clause(alloc: Global, words: &mut LineWords<'_>) -> Result<Option<LatchClause>, OutOfMemory>
    ensures { IfOk result (λ o. Takes o words.new (until (codes "0") literal_of [] words.old)) }
{
    let mut clause = LatchClause::new(alloc);
    while let Some(word) = words.next() {
        if word == b"0".as_slice() {
            return Ok(Some(clause));
        }
        let Some(number) = literal(word) else {
            return Ok(None);
        };
        clause.push(number)?;
    }
    Ok(None)
}

fn clause_in(alloc: Global, words: LineWords<'_>) -> Result<Option<LatchClause>, OutOfMemory>
    ensures { IfOk result (λ o. o ≡ clause_of words.entry) }
{
    let mut words = words;
    let Some(clause) = take_clause(alloc, &mut words)? else {
        return Ok(None);
    };
    Ok(last(clause, words))
}

fn read_clause(alloc: Global, lines: &mut TextLines<'_>) -> Result<LatchClause, ReportFault>
    ensures { Gives result lines.new (line_read clause_of lines.old) }
{
    let clause = clause_in(alloc, lines.words())?;
    lines.settle(clause)
}

#[derive(Drop)]
struct ClauseReader;

impl ItemReader for ClauseReader {
    type Item = LatchClause;

    ghost use Rattle.report_lines.specs.Reading.{line_read};
    ghost use Rattle.report_sections.specs.Proofs.{clause_of};

    ghost told = { λ _ _ p. line_read clause_of p };

    fn read(
        &self,
        alloc: Global,
        lines: &mut TextLines<'_>,
        _number: u32,
    ) -> Result<LatchClause, ReportFault> {
        read_clause(alloc, lines)
    }
}

/// So many clauses.
pub fn read_clauses(
    alloc: Global,
    lines: &mut TextLines<'_>,
    count: u32,
) -> Result<LatchClauses, ReportFault>
    ensures { Gives result lines.new (clauses_read count lines.old) }
{
    read_items(alloc, lines, &ClauseReader, count)
}

#[tactic(auto, using(crate::proofs::CertsRead::kept_steps))]
fn certificate(alloc: Global, lines: &mut TextLines<'_>) -> Result<Inv, ReportFault>
    ensures { Gives result lines.new (inv_read lines.old) }
{
    let count = read_count(b"inv", lines)?;
    let mut clauses = LatchClauses::new(alloc);
    let mut kept = Proofs::new(alloc);
    for _number in 0..count {
        let clause = read_clause(alloc, lines)?;
        let proof = read_proof(alloc, lines)?;
        clauses.push(clause)?;
        kept.push(proof)?;
    }
    Ok(Inv { clauses, kept })
}

#[derive(Drop)]
struct CertificateReader;

impl ItemReader for CertificateReader {
    type Item = Inv;

    ghost use Rattle.report_sections.specs.Certs.{inv_read};

    ghost told = { λ _ _ p. inv_read p };

    fn read(
        &self,
        alloc: Global,
        lines: &mut TextLines<'_>,
        _number: u32,
    ) -> Result<Inv, ReportFault> {
        certificate(alloc, lines)
    }
}

/// The section of the certificates.
pub fn read_invs(alloc: Global, lines: &mut TextLines<'_>) -> Result<Invs, ReportFault>
    ensures gives { Gives result lines.new (invs_read lines.old) }
    ensures reads { Reads (IsCounted FitsInv) invs_lines lines.old result lines.new }
{
    read_section(alloc, lines, b"invs", &CertificateReader)
}
