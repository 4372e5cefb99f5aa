//! Formulas from plain numbers.

ghost use Rattle.std.specs.Prelude.{◌↔◌, IsTrue};
ghost use Rattle.cnf_base.specs.Meaning.{IsWithin};

use cnf_base::{Clause, CnfLit, Formula};
use std::alloc::Global;
use std::process::Abort;
use std::test::Fail;

fn is_within(vars: u32, lits: &[CnfLit]) -> bool
    ensures { IsTrue result ↔ IsWithin vars lits.now }
{
    lits.iter().all(|lit| lit.var() <= vars)
}

/// The literal that makes a variable true.
pub fn yes(var: u16) -> i32 {
    i32::from(var)
}

/// The literal that makes it false.
pub fn no(var: u16) -> i32 {
    -i32::from(var)
}

/// A formula of no clauses, over at most 64 variables.
pub fn begin(rt: &impl Abort, alloc: Global, vars: u32) -> Formula {
    assert!(rt; vars <= 64);
    Formula::new(alloc, vars)
}

/// Adds the clause of these literals, none of them 0.
pub fn add(
    rt: &impl Abort,
    alloc: Global,
    formula: &mut Formula,
    lits: &[i32],
) -> Result<(), Fail> {
    let mut clause = Clause::new(alloc);
    for lit in lits {
        assert!(rt; *lit != 0);
        clause.push(CnfLit::new(*lit))?;
    }
    assert!(rt; is_within(formula.vars(), clause.as_slice()));
    formula.add(clause)?;
    Ok(())
}

pub fn formula_of(
    rt: &impl Abort,
    alloc: Global,
    vars: u32,
    clauses: &[&[i32]],
) -> Result<Formula, Fail> {
    let mut formula = begin(rt, alloc, vars);
    for lits in clauses {
        add(rt, alloc, &mut formula, lits)?;
    }
    Ok(formula)
}
