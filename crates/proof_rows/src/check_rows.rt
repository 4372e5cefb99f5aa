//! Rows on whole proofs and single steps, and on what hostile ones may hold.

use crate::tables::{Step, formula_of, hints_of, ids_of, proof_of};
use ProofKind::*;
use Step::*;
use cnf_base::{Clause, Formula};
use lrat_check::{AddFault, Checker, ProofFault, ProofKind, SpentFault, check_proof, check_spent};
use std::alloc::Global;
use std::process::Abort;
use std::test::Fail;

/// The clauses 1 and -1.
const CONTRARY: &[&[i32]] = &[&[1], &[-1]];

const TOP: u64 = (1 << 63) - 1;

/// Clauses over two variables, steps, and the step and the kind of the fault.
type ProofRow = (
    &'static [&'static [i32]],
    &'static [Step],
    Option<(u64, ProofKind)>,
);

const PROOF_ROWS: &[ProofRow] = &[
    (CONTRARY, &[Add(3, &[], &[1, 2])], None),
    (CONTRARY, &[Add(3, &[], &[2, 1])], None),
    (CONTRARY, &[], Some((0, NoEmpty))),
    (CONTRARY, &[Add(3, &[], &[])], Some((1, NoConflict))),
    (CONTRARY, &[Add(3, &[], &[-1, 2])], Some((1, NegativeHint))),
    (
        CONTRARY,
        &[Add(3, &[], &[9])],
        Some((1, UnknownId { id: 9 })),
    ),
    (
        CONTRARY,
        &[Add(3, &[], &[0])],
        Some((1, UnknownId { id: 0 })),
    ),
    (CONTRARY, &[Add(2, &[], &[1, 2])], Some((1, OldId))),
    // a hint after the clause that is false is not looked at, nor is a step after the empty clause
    (
        CONTRARY,
        &[Add(3, &[], &[1, 2, -9]), Add(1, &[], &[])],
        None,
    ),
    (
        CONTRARY,
        &[Delete(1, &[1]), Add(3, &[], &[1, 2])],
        Some((2, UnknownId { id: 1 })),
    ),
    (
        CONTRARY,
        &[Delete(1, &[1, 1])],
        Some((1, UnknownId { id: 1 })),
    ),
    (
        CONTRARY,
        &[Delete(1, &[2]), Delete(1, &[2])],
        Some((2, UnknownId { id: 2 })),
    ),
    // a literal both ways needs no hint
    (CONTRARY, &[Add(3, &[1, -1], &[])], Some((1, NoEmpty))),
    (
        &[&[1, 2]],
        &[Add(2, &[], &[1])],
        Some((1, NotUnit { hint: 1 })),
    ),
    // the same literal twice is one
    (&[&[1, 1], &[-1]], &[Add(3, &[], &[1, 2])], None),
    (
        &[&[1, 2], &[-1], &[-2]],
        &[Add(4, &[2, 2], &[2, 1]), Add(5, &[], &[4, 3])],
        None,
    ),
    // the least literal has no negation, and neither it nor the greatest is a variable of the formula
    (
        CONTRARY,
        &[
            Add(3, &[i32::MIN, i32::MAX], &[1, 2]),
            Add(4, &[-i32::MAX], &[1, 2]),
            Add(5, &[i32::MIN], &[4, 3]),
            Add(6, &[], &[]),
        ],
        Some((4, NoConflict)),
    ),
    (
        CONTRARY,
        &[
            Add(3, &[i32::MAX], &[1, 2]),
            Add(4, &[-i32::MAX], &[1, 2]),
            Add(5, &[], &[4, 3]),
        ],
        None,
    ),
    // ids may jump
    (
        CONTRARY,
        &[
            Add(100, &[7], &[1, 2]),
            Add(TOP, &[8], &[1, 2]),
            Delete(1, &[100, TOP]),
            Add(TOP, &[], &[1, 2]),
        ],
        Some((4, OldId)),
    ),
    (
        CONTRARY,
        &[
            Add(100, &[7], &[1, 2]),
            Add(TOP, &[-7], &[1, 2]),
            Add(TOP + 1, &[], &[100, TOP as i64]),
        ],
        None,
    ),
];

fn wanted(row: &ProofRow) -> Result<(), ProofFault> {
    match row.2 {
        None => Ok(()),
        Some((step, kind)) => Err(ProofFault::At { step, kind }),
    }
}

fn is_checked(
    rt: &impl Abort,
    alloc: Global,
    formula: &Formula,
    row: &ProofRow,
) -> Result<bool, Fail> {
    let proof = proof_of(rt, alloc, row.1)?;
    Ok(check_proof(alloc, formula, &proof) == wanted(row))
}

fn is_proof_row(rt: &impl Abort, alloc: Global, row: &ProofRow) -> Result<bool, Fail> {
    let formula = formula_of(rt, alloc, 2, row.0)?;
    is_checked(rt, alloc, &formula, row)
}

#[test]
fn proofs(rt: HostRuntime) -> Result<(), Fail> {
    for (place, row) in PROOF_ROWS.iter().enumerate() {
        assert!(rt; is_proof_row(&rt, rt.alloc(), row)?, "row {place}");
    }
    Ok(())
}

const PAIRS: &[&[i32]] = &[&[1, 2], &[1, -2]];

/// Steps, how many lemmas may be spent, and the answer.
type SpentRow = (&'static [Step], u64, Result<(), SpentFault>);

const SPENT_ROWS: &[SpentRow] = &[
    (&[], 0, Ok(())),
    (&[Add(3, &[1], &[1, 2])], 1, Ok(())),
    (&[Add(3, &[1], &[1, 2])], 2, Err(SpentFault::Count)),
    (
        &[Add(3, &[2, 1], &[1])],
        1,
        Err(SpentFault::Lemma { step: 1 }),
    ),
    (
        &[Add(3, &[1], &[1, 2]), Add(4, &[1, 1], &[3])],
        2,
        Err(SpentFault::Lemma { step: 2 }),
    ),
    (
        &[Add(3, &[3, -3], &[])],
        1,
        Err(SpentFault::Lemma { step: 1 }),
    ),
    (&[Delete(1, &[1])], 1, Err(SpentFault::Lemma { step: 1 })),
    (&[Delete(1, &[3])], 1, Err(SpentFault::Proof { step: 1 })),
    (&[Add(3, &[], &[1])], 0, Err(SpentFault::Proof { step: 1 })),
];

fn is_spent_row(
    rt: &impl Abort,
    alloc: Global,
    formula: &Formula,
    row: &SpentRow,
) -> Result<bool, Fail> {
    let proof = proof_of(rt, alloc, row.0)?;
    Ok(check_spent(alloc, formula, row.1, &proof) == row.2)
}

#[test]
fn spent_proofs(rt: HostRuntime) -> Result<(), Fail> {
    let formula = formula_of(&rt, rt.alloc(), 2, PAIRS)?;
    for (place, row) in SPENT_ROWS.iter().enumerate() {
        assert!(rt;
            is_spent_row(&rt, rt.alloc(), &formula, row)?,
            "row {place}"
        );
    }
    Ok(())
}

const UNKNOWN_9: Result<(), AddFault> = Err(AddFault::Kind(UnknownId { id: 9 }));

const UNKNOWN_1: Result<(), AddFault> = Err(AddFault::Kind(UnknownId { id: 1 }));

fn deletes(
    alloc: Global,
    checker: &mut Checker,
    ids: &[u64],
    wanted: Result<(), AddFault>,
) -> Result<bool, Fail> {
    let ids = ids_of(alloc, ids)?;
    Ok(checker.delete(&ids) == wanted)
}

fn adds_empty(
    alloc: Global,
    checker: &mut Checker,
    id: u64,
    wanted: Result<(), AddFault>,
) -> Result<bool, Fail> {
    let hints = hints_of(alloc, &[1, 2])?;
    Ok(checker.add(id, &Clause::new(alloc), &hints) == wanted)
}

/// A refused deletion takes nothing away.
fn takes_steps(alloc: Global, checker: &mut Checker) -> Result<bool, Fail> {
    let unknown = deletes(alloc, checker, &[1, 9], UNKNOWN_9)?;
    let added = adds_empty(alloc, checker, 3, Ok(()))?;
    let deleted = deletes(alloc, checker, &[1], Ok(()))?;
    let gone = adds_empty(alloc, checker, 4, UNKNOWN_1)?;
    Ok(unknown && added && deleted && gone)
}

fn checker_of(rt: &impl Abort, alloc: Global) -> Result<Checker, Fail> {
    let formula = formula_of(rt, alloc, 1, CONTRARY)?;
    Ok(Checker::new(alloc, &formula)?)
}

#[test]
fn single_steps(rt: HostRuntime) -> Result<(), Fail> {
    let mut checker = checker_of(&rt, rt.alloc())?;
    assert!(rt; takes_steps(rt.alloc(), &mut checker)?);
    Ok(())
}
