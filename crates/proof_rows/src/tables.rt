//! Formulas and proofs from tables of plain numbers.

ghost use Rattle.std.specs.Prelude.{◌↔◌, IsTrue};
ghost use Rattle.cnf_base.specs.Meaning.{IsWithin};

use cnf_base::{Clause, CnfLit, Formula};
use lrat_text::{Hints, Ids, LratStep, Proof};
use std::alloc::Global;
use std::process::Abort;
use std::test::Fail;

/// A step as a table writes it; a deletion has its own number first.
#[derive(Clone, Copy, Debug)]
pub enum Step {
    Add(u64, &'static [i32], &'static [i64]),
    Delete(u64, &'static [u64]),
}

fn is_within(vars: u32, lits: &[CnfLit]) -> bool
    ensures { IsTrue result ↔ IsWithin vars lits.now }
{
    lits.iter().all(|lit| lit.var() <= vars)
}

/// The clause of these literals, none of them 0.
pub fn clause_of(rt: &impl Abort, alloc: Global, values: &[i32]) -> Result<Clause, Fail> {
    let mut clause = Clause::new(alloc);
    for value in values {
        assert!(rt; *value != 0);
        clause.push(CnfLit::new(*value))?;
    }
    Ok(clause)
}

fn add(rt: &impl Abort, formula: &mut Formula, clause: Clause) -> Result<(), Fail> {
    assert!(rt; is_within(formula.vars(), clause.as_slice()));
    formula.add(clause)?;
    Ok(())
}

pub fn formula_of(
    rt: &impl Abort,
    alloc: Global,
    vars: u32,
    clauses: &[&[i32]],
) -> Result<Formula, Fail> {
    assert!(rt; vars <= 4_000_000);
    let mut formula = Formula::new(alloc, vars);
    for values in clauses {
        let clause = clause_of(rt, alloc, values)?;
        add(rt, &mut formula, clause)?;
    }
    Ok(formula)
}

pub fn hints_of(alloc: Global, values: &[i64]) -> Result<Hints, Fail> {
    Ok(Hints::from_vec(values.to_vec(alloc)?))
}

pub fn ids_of(alloc: Global, values: &[u64]) -> Result<Ids, Fail> {
    Ok(Ids::from_vec(values.to_vec(alloc)?))
}

fn addition(alloc: Global, id: u64, lits: Clause, hints: &[i64]) -> Result<LratStep, Fail> {
    let hints = hints_of(alloc, hints)?;
    Ok(LratStep::Add { id, lits, hints })
}

fn step_of(rt: &impl Abort, alloc: Global, step: &Step) -> Result<LratStep, Fail> {
    match step {
        Step::Add(id, lits, hints) => {
            let lits = clause_of(rt, alloc, lits)?;
            addition(alloc, *id, lits, hints)
        }
        Step::Delete(at, ids) => {
            let ids = ids_of(alloc, ids)?;
            Ok(LratStep::Delete { at: *at, ids })
        }
    }
}

pub fn proof_of(rt: &impl Abort, alloc: Global, steps: &[Step]) -> Result<Proof, Fail> {
    let mut proof = Proof::new(alloc);
    for step in steps {
        let step = step_of(rt, alloc, step)?;
        proof.push(step)?;
    }
    Ok(proof)
}
