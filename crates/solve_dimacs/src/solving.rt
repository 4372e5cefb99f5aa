//! A formula's answer.

ghost use Rattle.std.specs.Prelude.{◌≡◌, ℕ, ◌≤◌, ◌^◌, IfOk, IfErr, IfSome};
ghost use Rattle.solve_dimacs.specs.Solved.{IsAnswerTo};
ghost use Rattle.solve_dimacs.specs.Stops.{IsWithoutAnswer};
ghost use Rattle.solve_dimacs.specs.Words.{IsBudget};

use crate::stop::Stop;
use cnf_base::read_dimacs;
use run_io::{Desk, read_file};
use sat_solver::{Counted, solve_counting};
use std::alloc::Global;
use text_words::{lines_at_most_bytes, natural};

/// How many bytes a formula may have.
const LIMIT: u64 = 1 << 30;

/// How many lemmas a word allows.
pub fn budget(word: &[u8]) -> Result<u64, Stop>
    ensures ok { IfOk result (IsBudget word.now) }
    ensures usage { IfErr result (λ stop. (stop ≡ Stop.Usage) × ((lemmas : ℕ) → ¬ IsBudget word.now lemmas)) }
{
    match natural(word) {
        Some(lemmas) if lemmas >= 1 && lemmas <= 1 << 60 => Ok(lemmas),
        _ => Err(Stop::Usage),
    }
}

/// What the solver answers to the formula in a file.
pub fn solved<D: Desk>(
    alloc: Global,
    desk: &mut D,
    name: &[u8],
    lemmas: u64,
) -> Result<Counted, Stop>
    requires some { 1 ≤ lemmas }
    requires few { lemmas ≤ 2 ^ 60 }
    ensures answer { IfOk result (λ counted. IfSome ((D.state desk.old).text name.now) (λ text. IsAnswerTo text lemmas counted.answer)) }
    ensures conflicts { IfOk result (λ counted. counted.conflicts ≤ lemmas) }
    ensures none { IfErr result IsWithoutAnswer }
{
    let bytes = read_file(alloc, desk, name, LIMIT)?;
    lines_at_most_bytes(&bytes);
    let formula = read_dimacs(alloc, &bytes)?;
    let counted = solve_counting(alloc, &formula, lemmas)?;
    Ok(counted)
}
