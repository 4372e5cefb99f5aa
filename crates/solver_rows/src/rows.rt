//! Small formulas whose answers can be seen.

use crate::formulas::formula_of;
use crate::judging::{Outcome, Verdict, conflicts_of, outcome_of, verdict_of};
use std::test::Fail;

/// Three of six are true, of which no two may be.
const TRIANGLES: &[&[i32]] = &[
    &[1, 2],
    &[3, 4],
    &[5, 6],
    &[-1, -3],
    &[-1, -5],
    &[-3, -5],
    &[-2, -4],
    &[-2, -6],
    &[-4, -6],
];

/// A number of variables, clauses, a budget of lemmas, and the answer.
const ROWS: &[(u32, &[&[i32]], u64, Verdict)] = &[
    (0, &[], 1, Verdict::Sat),
    (0, &[&[]], 1, Verdict::Unsat),
    (6, TRIANGLES, 729, Verdict::Unsat),
    (2, &[&[1, -1], &[2]], 9, Verdict::Sat),
    // an empty clause among others
    (2, &[&[1, 2], &[], &[2]], 1, Verdict::Unsat),
    // each clause has a literal both ways
    (3, &[&[1, -1], &[2, -2, 3], &[-3, 1, 3, 3]], 1, Verdict::Sat),
    // literals that stand twice
    (2, &[&[1, 1, 2], &[-1, -1], &[-2, 1, -2]], 1, Verdict::Unsat),
    (2, &[&[1, 1, 1], &[-1, 2, -1]], 1, Verdict::Sat),
    (3, &[&[2, 1, -1], &[-2], &[2, 3, 2]], 1, Verdict::Sat),
    // clauses that stand twice
    (
        2,
        &[&[1, 2], &[2, 1], &[1, 2], &[-1], &[-1]],
        1,
        Verdict::Sat,
    ),
    // unit clauses that contradict one another
    (1, &[&[1], &[-1]], 1, Verdict::Unsat),
    (2, &[&[2, 2], &[1], &[-2, -2]], 1, Verdict::Unsat),
    // a unit clause and one that it forces contradict one another
    (2, &[&[-1, 2], &[1], &[-2]], 1, Verdict::Unsat),
    (3, &[&[1], &[-1, 2], &[-2, 3], &[-3, -1]], 1, Verdict::Unsat),
    // one lemma is enough, and it is a unit clause: with it, a model is found, or a clause is false at level 0
    (2, &[&[1, 2], &[1, -2]], 1, Verdict::Sat),
    (2, &[&[1, 2], &[1, -2], &[-1, 2]], 1, Verdict::Sat),
    (
        2,
        &[&[1, 2], &[1, -2], &[-1, 2], &[-1, -2]],
        1,
        Verdict::Unsat,
    ),
    // variables that no clause has
    (64, &[&[64, 63], &[-64]], 1, Verdict::Sat),
];

/// Formulas of two variables, and how many conflicts they take whatever is decided: one where each decision forces one.
const CONFLICTS: &[(&[&[i32]], usize)] = &[
    (&[], 0),
    (&[&[1], &[-1]], 0),
    (&[&[1], &[-1, 2], &[-2]], 0),
    (&[&[1, 2], &[1, -2], &[-1, 2], &[-1, -2]], 1),
];

#[test]
fn small_formulas(rt: HostRuntime) -> Result<(), Fail> {
    for (vars, clauses, lemmas, verdict) in ROWS {
        let formula = formula_of(&rt, rt.alloc(), *vars, clauses)?;
        let answer = verdict_of(&rt, rt.alloc(), &formula, *lemmas)?;
        assert_eq!(rt; answer, *verdict, "{clauses:?}");
    }
    Ok(())
}

#[test]
fn no_clauses(rt: HostRuntime) -> Result<(), Fail> {
    let formula = formula_of(&rt, rt.alloc(), 0, &[])?;
    let none = Outcome {
        verdict: Verdict::Sat,
        values: 0,
        steps: 0,
        greatest_named: 0,
    };
    assert_eq!(rt; outcome_of(&rt, rt.alloc(), &formula, 1)?, none);
    Ok(())
}

/// An empty clause is refuted by one step.
#[test]
fn empty_clause(rt: HostRuntime) -> Result<(), Fail> {
    let formula = formula_of(&rt, rt.alloc(), 0, &[&[]])?;
    let one_step = Outcome {
        verdict: Verdict::Unsat,
        values: 0,
        steps: 1,
        greatest_named: 0,
    };
    assert_eq!(rt; outcome_of(&rt, rt.alloc(), &formula, 1)?, one_step);
    Ok(())
}

#[test]
fn forced_value(rt: HostRuntime) -> Result<(), Fail> {
    let formula = formula_of(&rt, rt.alloc(), 2, &[&[1, -1], &[2]])?;
    let outcome = outcome_of(&rt, rt.alloc(), &formula, 9)?;
    assert_eq!(rt; outcome.values & 2, 2);
    Ok(())
}

#[test]
fn conflicts_are_counted(rt: HostRuntime) -> Result<(), Fail> {
    for (clauses, conflicts) in CONFLICTS {
        let formula = formula_of(&rt, rt.alloc(), 2, clauses)?;
        let counted = conflicts_of(&rt, rt.alloc(), &formula, 9)?;
        assert!(rt; counted == *conflicts);
    }
    Ok(())
}
