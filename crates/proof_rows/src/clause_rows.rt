//! Clauses that grow, their size, and each call of a formula that takes memory.

use cnf_base::{Clause, CnfLit, Formula};
use ketch_base::OutOfMemory;
use std::alloc::Global;
use std::mem::size_of;
use std::test::Fail;

const LITERALS: [i32; 5] = [3, -1, 2, -7, i32::MIN];

fn is_copied(alloc: Global, clause: &Clause) -> Result<bool, OutOfMemory> {
    let copy = Clause::from_slice(alloc, clause.as_slice())?;
    Ok(copy.as_slice() == clause.as_slice())
}

/// Pushes a literal, where what is there so far is copied as it is.
fn grows(alloc: Global, clause: &mut Clause, value: i32) -> Result<bool, OutOfMemory> {
    if value == 0 {
        return Ok(false);
    }
    let copied = is_copied(alloc, clause)?;
    clause.push(CnfLit::new(value))?;
    Ok(copied)
}

fn holds_literals(clause: &Clause) -> bool {
    clause.len() == 5
        && clause
            .as_slice()
            .iter()
            .zip(&LITERALS)
            .all(|(lit, value)| lit.value() == *value)
}

fn ends_with_least(clause: &Clause) -> bool {
    if clause.len() != 5 {
        return false;
    }
    let last = clause.get(4);
    last.value() == i32::MIN && last.var() == 1 << 31
}

#[test]
fn clauses_grow(rt: HostRuntime) -> Result<(), Fail> {
    let mut clause = Clause::new(rt.alloc());
    for value in LITERALS {
        assert!(rt; grows(rt.alloc(), &mut clause, value)?);
    }
    assert!(rt; holds_literals(&clause));
    assert!(rt; ends_with_least(&clause));
    Ok(())
}

#[test]
fn clauses_are_small(rt: HostRuntime) {
    assert!(rt; size_of::<Clause>() == 16);
}

#[test]
fn formulas_grow(rt: HostRuntime) -> Result<(), Fail> {
    let mut formula = Formula::new(rt.alloc(), 1);
    formula.add(Clause::new(rt.alloc()))?;
    assert!(rt; formula.clauses().len() == 1);
    Ok(())
}
