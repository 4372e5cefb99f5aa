//! The clauses of a formula, into a book and onto a trail.

ghost use Rattle.std.specs.Prelude.{◌≡◌, ◌<◌, ◌≤◌, ◌^◌, ◌+◌, ◌∷◌, ◌++◌, [], nat_eq, nat_abs, map, All, MatchBool, MatchOption, IsTrue, IsFalse, length, IfOk, OnOk};
ghost use Rattle.std.specs.List.{IsDistinct};
ghost use Rattle.cnf_base.specs.Dimacs.{IsLiteral};
ghost use Rattle.cnf_base.specs.Status.{IsFalsifiedIn};
ghost use Rattle.sat_trail.specs.Trail.{lits, value_in};
ghost use Rattle.sat_watch.specs.Book.{IsBookClause};
ghost use Rattle.sat_solver.specs.Gathered.{IsGathered};
ghost use Rattle.sat_solver.specs.InputClauses.{IsLoadedIn, IsFalsifiedAt, store, with_unit, IsTaken};

use crate::gathered::Gathered;
use cnf_base::{Clause, CnfLit, Formula};
use ketch_base::OutOfMemory;
use sat_learn::Premises;
use sat_trail::{ClauseId, Trail, Value};
use std::alloc::Global;

/// Assigns the literal of a unit clause, unless it is true already: whether it is false.
fn load_unit(trail: &mut Trail, lit: CnfLit, id: u64) -> bool
    requires in_range { nat_abs lit ≤ trail.old.vars }
    ensures is_false { IsTrue result → value_in (lits trail.old.assignments) lit ≡ Value.False }
    ensures kept { IsTrue result → trail.new ≡ trail.old }
    ensures taken { IsFalse result → trail.new ≡ with_unit id lit trail.old }
{
    match trail.value(lit) {
        Value::True => false,
        Value::False => true,
        Value::Unset => {
            trail.assume(lit, ClauseId::Unit(id));
            false
        }
    }
}

/// Adds a clause to the book, without the literals that it repeats: `plain` has each literal once.
pub fn add_clause(
    alloc: Global,
    premises: &mut Premises,
    clause: &Clause,
    plain: &[CnfLit],
    id: u64,
) -> Result<(), OutOfMemory>
    requires vars { premises.old.trail.vars ≡ premises.old.book.vars }
    requires fits { IsBookClause premises.old.book.vars plain.now }
    requires whole { length plain.now ≡ length clause.now → plain.now ≡ clause.now }
    ensures trail { premises.new.trail ≡ premises.old.trail }
    ensures book { OnOk result (premises.new.book ≡ record premises.old.book { clauses = premises.old.book.clauses ++ plain.now ∷ [] }) }
    ensures proof_ids { OnOk result (premises.new.proof_ids.items ≡ premises.old.proof_ids.items ++ id ∷ []) }
{
    if plain.len() == clause.len() {
        premises.book.add(clause, &premises.trail)?;
    } else {
        let clause = Clause::from_slice(alloc, plain)?;
        premises.book.add(&clause, &premises.trail)?;
    }
    premises.proof_ids.push(id)?;
    Ok(())
}

/// Takes in a clause, of which `plain` has each literal once: whether it is false.
fn load_plain(
    alloc: Global,
    premises: &mut Premises,
    clause: &Clause,
    plain: &[CnfLit],
    id: u64,
) -> Result<bool, OutOfMemory>
    requires trail_vars { premises.old.trail.vars ≡ premises.old.book.vars }
    requires in_range { All (IsLiteral premises.old.book.vars) plain.now }
    requires distinct { IsDistinct nat_eq (map nat_abs plain.now) }
    requires whole { length plain.now ≡ length clause.now → plain.now ≡ clause.now }
    ensures { IfOk result (λ is_false. MatchBool is_false
        (IsFalsifiedIn (lits premises.old.trail.assignments) plain.now × (store premises.new ≡ store premises.old))
        (IsTaken id plain.now (store premises.old) (store premises.new))) }
{
    match plain {
        [] => Ok(true),
        [lit] => Ok(load_unit(&mut premises.trail, *lit, id)),
        _ => {
            add_clause(alloc, premises, clause, plain, id)?;
            Ok(false)
        }
    }
}

/// Takes in the clause at an index of the formula: whether it is false.
fn load_clause(
    alloc: Global,
    formula: &Formula,
    index: usize,
    premises: &mut Premises,
    gathered: &mut Gathered,
) -> Result<bool, OutOfMemory>
    requires few { length formula.now.clauses < 2 ^ 60 }
    requires within { index < length formula.now.clauses }
    requires loaded { IsLoadedIn formula.now index (store premises.old) }
    requires gathered { IsGathered gathered.old }
    requires vars { gathered.old.vars ≡ formula.now.vars }
    ensures gathered { OnOk result (IsGathered gathered.new) }
    ensures vars { OnOk result (gathered.new.vars ≡ formula.now.vars) }
    ensures loaded { IfOk result (λ is_false. MatchBool is_false
        (IsLoadedIn formula.now index (store premises.new) × IsFalsifiedAt formula.now premises.new.trail index)
        (IsLoadedIn formula.now (index + 1) (store premises.new))) }
{
    let clause = formula.clauses().get(index);
    if gathered.gather(clause.as_slice())? {
        load_plain(alloc, premises, clause, &gathered.lits, index as u64 + 1)
    } else {
        Ok(false)
    }
}

/// Takes the clauses of a formula up to one that is false at level 0: its index, if there is one.
///
/// A clause with a literal both ways is left out, and a literal that stands twice is taken once.
pub fn load(
    alloc: Global,
    formula: &Formula,
    premises: &mut Premises,
) -> Result<Option<usize>, OutOfMemory>
    requires few { length formula.now.clauses < 2 ^ 60 }
    requires trail { premises.old.trail ≡ record { vars = formula.now.vars; assignments = []; level = 0; low = 0 } }
    requires book { premises.old.book ≡ record { vars = formula.now.vars; clauses = []; seen = [] } }
    requires proof_ids { premises.old.proof_ids.items ≡ [] }
    ensures { IfOk result (λ stop. MatchOption stop
        (IsLoadedIn formula.now (length formula.now.clauses) (store premises.new))
        (λ index. IsLoadedIn formula.now index (store premises.new) × IsFalsifiedAt formula.now premises.new.trail index)) }
{
    let mut gathered = Gathered::new(alloc, formula.vars())?;
    for index in 0..formula.clauses().len() {
        if load_clause(alloc, formula, index, premises, &mut gathered)? {
            return Ok(Some(index));
        }
    }
    Ok(None)
}
