//! Keys by which clauses with the same literals are found.

ghost use Rattle.std.specs.Prelude.{IfOk, OnOk, All};
ghost use Rattle.lrat_check.specs.ClauseKeys.{IsKeyOf, HoldsStep, AreTaken};

use cnf_base::{Clause, CnfLit};
use ketch_base::OutOfMemory;
use lrat_text::LratStep;
use std::alloc::Global;
use std::collections::BTreeSet;

/// Keys, each the literals of a clause in rising order, each once.
pub type Keys = BTreeSet<Vec<i32>>;

fn fill_key(key: &mut Vec<i32>, lits: &[CnfLit]) -> Result<(), OutOfMemory>
    ensures { OnOk result (IsKeyOf lits.now key.new.items) }
{
    key.clear();
    for lit in lits {
        key.push(lit.value())?;
    }
    key.sort_unstable();
    key.dedup();
    Ok(())
}

pub fn key_of(alloc: Global, lits: &[CnfLit]) -> Result<Vec<i32>, OutOfMemory>
    ensures { IfOk result (λ key. IsKeyOf lits.now key.items) }
{
    let mut key = Vec::new(alloc);
    fill_key(&mut key, lits)?;
    Ok(key)
}

/// The keys of all clauses that the steps add.
pub fn asked_keys(alloc: Global, steps: &[LratStep]) -> Result<Keys, OutOfMemory>
    ensures { IfOk result (λ asked. All (HoldsStep asked) steps.now) }
{
    let mut asked = BTreeSet::new(alloc);
    for step in steps {
        if let LratStep::Add {
            id: _,
            lits,
            hints: _,
        } = step
        {
            asked.insert(key_of(alloc, lits.as_slice())?)?;
        }
    }
    Ok(asked)
}

/// Those of the asked keys that the clauses have. A formula may be far larger than a proof, so no other key is kept.
pub fn taken_keys(alloc: Global, asked: &Keys, clauses: &[Clause]) -> Result<Keys, OutOfMemory>
    ensures { IfOk result (λ taken. AreTaken asked.now taken clauses.now) }
{
    let mut taken = BTreeSet::new(alloc);
    let mut key = Vec::new(alloc);
    for clause in clauses {
        fill_key(&mut key, clause.as_slice())?;
        if asked.contains(key.as_slice()) {
            taken.insert(key.clone()?)?;
        }
    }
    Ok(taken)
}
