//! What the solver answers to formulas whose truth is tried out.

use crate::formulas::{add, begin};
use crate::judging::{Verdict, verdict_of};
use crate::random::random_formula;
use crate::truth::has_model;
use cnf_base::Formula;
use std::alloc::Global;
use std::process::Abort;
use std::test::Fail;

/// What trying all values says of a formula of at most 20 variables.
fn truth_of(formula: &Formula) -> Verdict {
    if has_model(formula) {
        Verdict::Sat
    } else {
        Verdict::Unsat
    }
}

#[test]
fn random_formulas(rt: HostRuntime) -> Result<(), Fail> {
    for seed in 0..36u64 {
        let formula = random_formula(&rt, rt.alloc(), seed, 12 + (seed % 9) as u8)?;
        let truth = truth_of(&formula);
        let answer = verdict_of(&rt, rt.alloc(), &formula, 1_000_000)?;
        assert_eq!(rt; answer, truth, "seed {seed}");
        let answer = verdict_of(&rt, rt.alloc(), &formula, 3)?;
        assert!(rt; answer == Verdict::Spent || answer == truth, "seed {seed}");
    }
    Ok(())
}

/// The clauses over two variables without a literal both ways.
const CLAUSES: &[&[i32]] = &[
    &[1, 2],
    &[1, -2],
    &[-1, 2],
    &[-1, -2],
    &[1],
    &[-1],
    &[2],
    &[-2],
    &[],
];

/// Those of the clauses whose bits are set in a number.
fn chosen(rt: &impl Abort, alloc: Global, choice: u32) -> Result<Formula, Fail> {
    let mut formula = begin(rt, alloc, 2);
    for (place, lits) in CLAUSES.iter().enumerate() {
        if (choice >> (place % 32)) & 1 == 1 {
            add(rt, alloc, &mut formula, lits)?;
        }
    }
    Ok(formula)
}

#[test]
fn all_formulas_over_two_variables(rt: HostRuntime) -> Result<(), Fail> {
    for choice in 0..512u32 {
        let formula = chosen(&rt, rt.alloc(), choice)?;
        let answer = verdict_of(&rt, rt.alloc(), &formula, 4)?;
        assert_eq!(rt; answer, truth_of(&formula), "choice {choice}");
    }
    Ok(())
}
