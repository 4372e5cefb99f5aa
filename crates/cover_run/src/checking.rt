//! The command `lrat`: it reads a formula and a proof, and judges the proof.

ghost use Rattle.std.specs.Prelude.{◌≡◌, ◌≤◌, IfOk, IfErr, OnOk, length, codes, true, false};
ghost use Rattle.run_io.specs.Desk.{HasSameTexts};
ghost use Rattle.cnf_base.specs.Dimacs.{SpellsFormula};
ghost use Rattle.lrat_text.specs.Lrat.{SpellsProof};
ghost use Rattle.lrat_text.specs.Accepted.{Accepted};
ghost use Rattle.cover_run.specs.Answer.{EarlyCause};
ghost use Rattle.cover_run.specs.Checking.{formula_stop, HasFormula, HasProof, IsLratOutput};
ghost use Rattle.command_words.specs.Commands.{lrat_call};
ghost use Rattle.cover_run.specs.Files.{files_of, IsAllRead, HasRead};
ghost use Rattle.cover_run.specs.Seen.{seen};
ghost use Rattle.cover_run.specs.Steps.{FormulaCause, ProofCause, JudgeCause};
ghost use Rattle.command_words.specs.Stops.{is_of_devices};
ghost use Rattle.command_words.specs.Words.{Lrat as LratMeaning};

use crate::output::Output;
use crate::part::read_part;
use cnf_base::{DimacsFault, DimacsKind, Formula, read_dimacs};
use command_words::{File, Lrat, Measure, Refusal, Stop};
use ketch_base::OutOfMemory;
use lrat_check::{ProofFault, check_proof};
use lrat_text::{LratFault, Proof, read_lrat};
use run_io::Desk;
use std::alloc::Global;
use text_words::lines_at_most_bytes;

fn formula_stop(line: u32, kind: DimacsKind) -> Stop
    ensures stop { result ≡ formula_stop line kind }
    ensures read { is_of_devices result ≡ false }
{
    match kind {
        DimacsKind::Limit => Stop::TooLarge(Measure::Formula),
        DimacsKind::Header | DimacsKind::Literal | DimacsKind::Count | DimacsKind::Truncated =>
            Stop::Refused(Refusal::Formula { line, kind }),
    }
}

fn formula_of(alloc: Global, bytes: &[u8]) -> Result<Formula, Stop>
    requires { length bytes.now ≤ 268435456 }
    ensures formula { IfOk result (SpellsFormula bytes.now) }
    ensures cause { IfErr result (FormulaCause bytes.now) }
    ensures read { IfErr result (λ stop. is_of_devices stop ≡ false) }
{
    lines_at_most_bytes(bytes);
    match read_dimacs(alloc, bytes) {
        Ok(formula) => Ok(formula),
        Err(DimacsFault::At { line, kind }) => Err(formula_stop(line, kind)),
        Err(DimacsFault::OutOfMemory) => Err(Stop::OutOfMemory),
    }
}

fn proof_of(alloc: Global, bytes: &[u8]) -> Result<Proof, Stop>
    requires { length bytes.now ≤ 268435456 }
    ensures proof { IfOk result (SpellsProof bytes.now) }
    ensures cause { IfErr result (ProofCause bytes.now) }
    ensures read { IfErr result (λ stop. is_of_devices stop ≡ false) }
{
    lines_at_most_bytes(bytes);
    match read_lrat(alloc, bytes) {
        Ok(proof) => Ok(proof),
        Err(LratFault::At { line, kind }) => Err(Stop::Refused(Refusal::Proof { line, kind })),
        Err(LratFault::OutOfMemory) => Err(Stop::OutOfMemory),
    }
}

/// The formula and the proof of a command. The bytes of each file go once they are read.
fn read_both<D: Desk>(
    alloc: Global,
    desk: &mut D,
    call: &Lrat<'_>,
) -> Result<(Formula, Proof), Stop>
    ensures text { HasSameTexts (D.state desk.old) (D.state desk.new) }
    ensures formula { IfOk result (λ both. HasFormula (lrat_call call.now) (seen (D.state desk.old) (D.state desk.new)) both.0) }
    ensures proof { IfOk result (λ both. HasProof (lrat_call call.now) (seen (D.state desk.old) (D.state desk.new)) both.1) }
    ensures cause { IfErr result (EarlyCause (LratMeaning (lrat_call call.now)) (seen (D.state desk.old) (D.state desk.new))) }
    ensures read { OnOk result (IsAllRead (files_of (LratMeaning (lrat_call call.now))) (seen (D.state desk.old) (D.state desk.new))) }
    ensures left { IfErr result (HasRead (files_of (LratMeaning (lrat_call call.now))) (seen (D.state desk.old) (D.state desk.new))) }
{
    let formula = {
        let bytes = read_part(alloc, desk, File::Formula, call.formula)?;
        formula_of(alloc, &bytes)?
    };
    let bytes = read_part(alloc, desk, File::Proof, call.proof)?;
    let proof = proof_of(alloc, &bytes)?;
    Ok((formula, proof))
}

fn accepted(alloc: Global) -> Result<Output, OutOfMemory>
    ensures bytes { IfOk result (λ output. output.bytes.items ≡ codes "accepted\n") }
    ensures settled { IfOk result (λ output. output.settled ≡ true) }
{
    let bytes = Vec::from_slice(alloc, b"accepted\n")?;
    Ok(Output {
        bytes,
        settled: true,
    })
}

fn judge(alloc: Global, formula: &Formula, proof: &Proof) -> Result<(), Stop>
    ensures accepted { OnOk result (Accepted formula.now proof.now) }
    ensures cause { IfErr result (JudgeCause formula.now proof.now) }
    ensures read { IfErr result (λ stop. is_of_devices stop ≡ false) }
{
    match check_proof(alloc, formula, proof) {
        Ok(()) => Ok(()),
        Err(ProofFault::At { step, kind }) => Err(Stop::Refused(Refusal::Step { step, kind })),
        Err(ProofFault::OutOfMemory) => Err(Stop::OutOfMemory),
    }
}

/// What an lrat command writes. Nothing is written yet.
pub(crate) fn check<D: Desk>(alloc: Global, desk: &mut D, call: &Lrat<'_>) -> Result<Output, Stop>
    ensures text { HasSameTexts (D.state desk.old) (D.state desk.new) }
    ensures output { IfOk result (λ output.
        IsLratOutput (lrat_call call.now) (seen (D.state desk.old) (D.state desk.new)) output.bytes.items output.settled) }
    ensures cause { IfErr result (EarlyCause (LratMeaning (lrat_call call.now)) (seen (D.state desk.old) (D.state desk.new))) }
    ensures read { OnOk result (IsAllRead (files_of (LratMeaning (lrat_call call.now))) (seen (D.state desk.old) (D.state desk.new))) }
    ensures left { IfErr result (HasRead (files_of (LratMeaning (lrat_call call.now))) (seen (D.state desk.old) (D.state desk.new))) }
{
    let (formula, proof) = read_both(alloc, desk, call)?;
    judge(alloc, &formula, &proof)?;
    let output = accepted(alloc)?;
    Ok(output)
}
