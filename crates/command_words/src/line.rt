//! The lines on the error stream. They take no memory.

ghost use Rattle.std.specs.Prelude.{◌≡◌, ◌+◌, ◌<◌, ◌≤◌, ◌++◌, length, codes, decimal};
ghost use Rattle.command_words.specs.Stops.{file_word, measure_word, aag_word, aig_word, circuit_word, sig_word, dimacs_word, lrat_word, wit_word, misfit_words, proof_words, word_line, placed_text, placed_line, refusal_line, line_of};

use crate::stop::{CircuitKind, File, Measure, Misfit, Refusal, Stop};
use aig_ascii::AagKind;
use aig_binary::AigKind;
use arrayvec::ArrayString;
use cnf_base::DimacsKind;
use itoa::Buffer;
use lrat_check::ProofKind;
use lrat_text::LratKind;
use signal_list::SigKind;
use wit_text::WitKind;

/// A line, with room for the longest: two numbers of twenty digits and their words.
pub type Line = ArrayString<96>;

fn file_word(file: File) -> &'static str
    ensures word { result.now ≡ file_word file }
    ensures short { length result.now ≤ 20 }
{
    match file {
        File::Circuit => "circuit",
        File::Signals => "signals",
        File::Formula => "formula",
        File::Proof => "proof",
        File::Witness => "witness",
    }
}

fn measure_word(measure: Measure) -> &'static str
    ensures word { result.now ≡ measure_word measure }
    ensures short { length result.now ≤ 20 }
{
    match measure {
        Measure::Formula => "formula",
        Measure::Frames => "frames",
        Measure::Walk => "walk",
        Measure::Goals => "goals",
    }
}

fn dimacs_word(kind: DimacsKind) -> &'static str
    ensures word { result.now ≡ dimacs_word kind }
    ensures short { length result.now ≤ 20 }
{
    match kind {
        DimacsKind::Header => "Header",
        DimacsKind::Literal => "Literal",
        DimacsKind::Count => "Count",
        DimacsKind::Truncated => "Truncated",
        DimacsKind::Limit => "Limit",
    }
}

fn lrat_word(kind: LratKind) -> &'static str
    ensures word { result.now ≡ lrat_word kind }
    ensures short { length result.now ≤ 20 }
{
    match kind {
        LratKind::Number => "Number",
        LratKind::Form => "Form",
        LratKind::Truncated => "Truncated",
    }
}

fn aag_word(kind: AagKind) -> &'static str
    ensures word { result.now ≡ aag_word kind }
    ensures short { length result.now ≤ 20 }
{
    match kind {
        AagKind::Header => "Header",
        AagKind::Number => "Number",
        AagKind::Range => "Range",
        AagKind::Defined => "Defined",
        AagKind::Undefined => "Undefined",
        AagKind::Cycle => "Cycle",
        AagKind::Reset => "Reset",
        AagKind::Symbol => "Symbol",
        AagKind::Truncated => "Truncated",
        AagKind::Liveness => "Liveness",
        AagKind::Limit => "Limit",
    }
}

fn aig_word(kind: AigKind) -> &'static str
    ensures word { result.now ≡ aig_word kind }
    ensures short { length result.now ≤ 20 }
{
    match kind {
        AigKind::Header => "Header",
        AigKind::Number => "Number",
        AigKind::Range => "Range",
        AigKind::Reset => "Reset",
        AigKind::Symbol => "Symbol",
        AigKind::Truncated => "Truncated",
        AigKind::Liveness => "Liveness",
        AigKind::Limit => "Limit",
        AigKind::Delta => "Delta",
    }
}

fn circuit_word(kind: CircuitKind) -> &'static str
    ensures word { result.now ≡ circuit_word kind }
    ensures short { length result.now ≤ 20 }
{
    match kind {
        CircuitKind::Ascii(kind) => aag_word(kind),
        CircuitKind::Binary(kind) => aig_word(kind),
    }
}

fn sig_word(kind: SigKind) -> &'static str
    ensures word { result.now ≡ sig_word kind }
    ensures short { length result.now ≤ 20 }
{
    match kind {
        SigKind::Form => "Form",
        SigKind::Range => "Range",
        SigKind::NoName => "NoName",
        SigKind::TwoNames => "TwoNames",
        SigKind::Repeated => "Repeated",
        SigKind::TooMany => "TooMany",
        SigKind::Empty => "Empty",
    }
}

fn wit_word(kind: WitKind) -> &'static str
    ensures word { result.now ≡ wit_word kind }
    ensures short { length result.now ≤ 20 }
{
    match kind {
        WitKind::Status => "Status",
        WitKind::Property => "Property",
        WitKind::Length => "Length",
        WitKind::NoRows => "NoRows",
        WitKind::Truncated => "Truncated",
    }
}

fn line_from(text: &str) -> Line
    requires { length text.now ≤ 80 }
    ensures { result.bytes ≡ text.now }
{
    let mut line = Line::new();
    line.push_str(text);
    line
}

fn push_number(line: &mut Line, n: u64)
    requires { length line.old.bytes ≤ 76 }
    ensures bytes { line.new.bytes ≡ line.old.bytes ++ decimal n }
    ensures short { length line.new.bytes ≤ length line.old.bytes + 20 }
{
    let mut buffer = Buffer::new();
    line.push_str(buffer.format(n));
}

/// A text, and a word that ends the line.
fn word_line(text: &str, word: &str) -> Line
    requires text { length text.now ≤ 40 }
    requires word { length word.now ≤ 20 }
    ensures { result.bytes ≡ word_line text.now word.now }
{
    let mut line = line_from(text);
    line.push_str(word);
    line.push_str("\n");
    line
}

/// A text and a place, before what is wrong there.
fn placed_text(text: &str, place: u64) -> Line
    requires { length text.now ≤ 34 }
    ensures bytes { result.bytes ≡ placed_text text.now place }
    ensures short { length result.bytes ≤ 56 }
{
    let mut line = line_from(text);
    push_number(&mut line, place);
    line.push_str(": ");
    line
}

/// A text, a place, and what is wrong there.
fn placed_line(text: &str, place: u64, kind: &str) -> Line
    requires text { length text.now ≤ 34 }
    requires kind { length kind.now ≤ 20 }
    ensures { result.bytes ≡ placed_line text.now place kind.now }
{
    let mut line = placed_text(text, place);
    line.push_str(kind);
    line.push_str("\n");
    line
}

/// A name, and the id that it speaks of.
fn push_id(line: &mut Line, name: &str, id: u64)
    requires line { length line.old.bytes ≤ 56 }
    requires name { length name.now ≤ 15 }
    ensures bytes { line.new.bytes ≡ line.old.bytes ++ (name.now ++ decimal id) }
    ensures short { length line.new.bytes ≤ 91 }
{
    line.push_str(name);
    push_number(line, id);
}

fn push_kind(line: &mut Line, kind: ProofKind)
    requires { length line.old.bytes ≤ 56 }
    ensures bytes { line.new.bytes ≡ line.old.bytes ++ proof_words kind }
    ensures short { length line.new.bytes ≤ 91 }
{
    match kind {
        ProofKind::OldId => line.push_str("OldId"),
        ProofKind::UnknownId { id } => push_id(line, "UnknownId ", id),
        ProofKind::NotUnit { hint } => push_id(line, "NotUnit ", hint),
        ProofKind::NoConflict => line.push_str("NoConflict"),
        ProofKind::NegativeHint => line.push_str("NegativeHint"),
        ProofKind::NoEmpty => line.push_str("NoEmpty"),
    }
}

fn step_line(step: u64, kind: ProofKind) -> Line
    ensures { result.bytes ≡ placed_line (codes "ketch: refused: step ") step (proof_words kind) }
{
    let mut line = placed_text("ketch: refused: step ", step);
    push_kind(&mut line, kind);
    line.push_str("\n");
    line
}

fn push_misfit(line: &mut Line, misfit: Misfit)
    requires { length line.old.bytes ≤ 56 }
    ensures bytes { line.new.bytes ≡ line.old.bytes ++ misfit_words misfit }
    ensures short { length line.new.bytes ≤ 91 }
{
    match misfit {
        Misfit::NotReset { latch } => push_id(line, "NotReset ", latch.into()),
        Misfit::Constraint { step } => push_id(line, "Constraint ", step.into()),
        Misfit::Property => line.push_str("Property"),
    }
}

fn trace_line(misfit: Misfit) -> Line
    ensures { result.bytes ≡ word_line (codes "ketch: refused: trace: ") (misfit_words misfit) }
{
    let mut line = line_from("ketch: refused: trace: ");
    push_misfit(&mut line, misfit);
    line.push_str("\n");
    line
}

fn refusal_line(why: Refusal) -> Line
    ensures { result.bytes ≡ refusal_line why }
{
    match why {
        Refusal::Formula { line, kind } => placed_line(
            "ketch: refused: formula line ",
            line.into(),
            dimacs_word(kind),
        ),
        Refusal::Proof { line, kind } => {
            placed_line("ketch: refused: proof line ", line.into(), lrat_word(kind))
        }
        Refusal::Step { step, kind } => step_line(step, kind),
        Refusal::Witness { at, kind } => {
            placed_line("ketch: refused: witness at ", at, wit_word(kind))
        }
        Refusal::Trace(misfit) => trace_line(misfit),
    }
}

pub fn line_of(stop: Stop) -> Line
    ensures { result.bytes ≡ line_of stop }
{
    match stop {
        Stop::Usage => line_from("ketch: usage: ketch cover|check|goals|replay|lrat|make ..\n"),
        Stop::Unreadable(file) => word_line("ketch: cannot read ", file_word(file)),
        Stop::TooLong(file) => word_line("ketch: limit: ", file_word(file)),
        Stop::TooLarge(measure) => word_line("ketch: limit: ", measure_word(measure)),
        Stop::BadCircuit { at, kind } => placed_line("ketch: circuit at ", at, circuit_word(kind)),
        Stop::BadSignals { line, kind } => {
            placed_line("ketch: signals line ", line.into(), sig_word(kind))
        }
        Stop::Refused(why) => refusal_line(why),
        Stop::CannotWrite => line_from("ketch: cannot write\n"),
        Stop::OutOfMemory => line_from("ketch: out of memory\n"),
    }
}
