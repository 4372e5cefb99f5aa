//! A clause of the formula, taken in at level 0.

ghost use Rattle.std.specs.Prelude.{◌≡◌, ◌<◌, ◌≤◌, ◌^◌, ℤ, List, MatchBool, IsTrue, IsFalse, None, length, nat_abs, nat_eq, map, All, IfOk, OnOk};
ghost use Rattle.std.specs.List.{IsDistinct};
ghost use Rattle.cnf_base.specs.Dimacs.{IsLiteral};
ghost use Rattle.cnf_base.specs.Meaning.{IsWithin};
ghost use Rattle.cnf_base.specs.Status.{IsFalsifiedIn};
ghost use Rattle.sat_trail.specs.Trail.{lits, value_in};
ghost use Rattle.sat_learn.specs.Reasons.{HasId};
ghost use Rattle.sat_solver.specs.Gathered.{IsGathered};
ghost use Rattle.sat_solver.specs.InputClauses.{store};
ghost use Rattle.sat_incremental.specs.Holding.{IsUnitHeld, IsPlainHeld, IsHeld};
ghost use Rattle.sat_incremental.specs.Entries.{live, GrowsByClause, GrowsByLemmas};
ghost use Rattle.sat_incremental.specs.Searching.{IsSearch, IsSearchOf, IsRefuted, IsAtEase};

use crate::entry::Entry;
use crate::search::{Search, next_id};
use cnf_base::{Clause, CnfLit};
use ketch_base::OutOfMemory;
use sat_learn::Premises;
use sat_solver::{Gathered, add_clause};
use sat_trail::{ClauseId, Trail, Value};
use std::alloc::Global;

/// Takes in a unit clause at level 0: whether it is false. A literal that is true rests on the clause from then on.
fn hold_unit(trail: &mut Trail, lit: CnfLit, id: u64) -> bool
    requires root { trail.old.level ≡ 0 }
    requires in_range { nat_abs lit ≤ trail.old.vars }
    ensures is_false { IsTrue result → value_in (lits trail.old.assignments) lit ≡ Value.False }
    ensures same { IsTrue result → trail.new ≡ trail.old }
    ensures held { IsFalse result → IsUnitHeld id lit trail.old trail.new }
{
    trail.is_well_formed();
    match trail.value(lit) {
        Value::True => {
            trail.set_reason(lit.var(), ClauseId::Unit(id));
            false
        }
        Value::False => true,
        Value::Unset => {
            trail.assume(lit, ClauseId::Unit(id));
            false
        }
    }
}

/// Takes in a clause at level 0, of which `plain` has each literal once: whether it is false.
fn hold_plain(
    alloc: Global,
    premises: &mut Premises,
    clause: &Clause,
    plain: &[CnfLit],
    id: u64,
) -> Result<bool, OutOfMemory>
    requires root { premises.old.trail.level ≡ 0 }
    requires trail_vars { premises.old.trail.vars ≡ premises.old.book.vars }
    requires in_range { All (IsLiteral premises.old.book.vars) plain.now }
    requires distinct { IsDistinct nat_eq (map nat_abs plain.now) }
    requires whole { length plain.now ≡ length clause.now → plain.now ≡ clause.now }
    ensures { IfOk result (λ is_false. MatchBool is_false
        (IsFalsifiedIn (lits premises.old.trail.assignments) plain.now × (store premises.new ≡ store premises.old))
        (IsPlainHeld id plain.now (store premises.old) (store premises.new))) }
{
    match plain {
        [] => Ok(true),
        [lit] => Ok(hold_unit(&mut premises.trail, *lit, id)),
        _ => {
            add_clause(alloc, premises, clause, plain, id)?;
            Ok(false)
        }
    }
}

/// Takes in a clause at level 0: whether it is false.
fn hold(
    alloc: Global,
    premises: &mut Premises,
    gathered: &mut Gathered,
    clause: &Clause,
    id: u64,
) -> Result<bool, OutOfMemory>
    requires root { premises.old.trail.level ≡ 0 }
    requires trail_vars { premises.old.trail.vars ≡ premises.old.book.vars }
    requires gathered { IsGathered gathered.old }
    requires gathered_vars { gathered.old.vars ≡ premises.old.book.vars }
    requires in_range { IsWithin premises.old.book.vars clause.now }
    requires small { id < 2 ^ 62 }
    ensures gathered { OnOk result (IsGathered gathered.new) }
    ensures gathered_vars { OnOk result (gathered.new.vars ≡ gathered.old.vars) }
    ensures held { IfOk result (IsHeld id clause.now (store premises.old) (store premises.new)) }
{
    premises.trail.is_well_formed();
    if gathered.gather(clause.as_slice())? {
        hold_plain(alloc, premises, clause, &gathered.lits, id)
    } else {
        Ok(false)
    }
}

/// Adds the empty clause, since a clause is false at level 0: its id.
pub fn refute(
    alloc: Global,
    search: &mut Search,
    clause: &[CnfLit],
    id: u64,
) -> Result<u64, OutOfMemory>
    requires search { (done : List (List ℤ)) × IsSearchOf done search.old }
    requires root { search.old.premises.trail.level ≡ 0 }
    requires false_now { IsFalsifiedIn (lits search.old.premises.trail.assignments) clause.now }
    requires has_id { HasId (live search.old.entries) id clause.now }
    requires small { id < 2 ^ 62 }
    ensures refuted { IfOk result (IsRefuted search.new) }
    ensures ease { OnOk result (IsAtEase search.new) }
    ensures vars { OnOk result (search.new.vars ≡ search.old.vars) }
    ensures grows { OnOk result (GrowsByLemmas search.old.entries 1 search.new.entries) }
{
    let hints = search.analyzer.refute(&search.premises, clause, id)?;
    let empty = next_id(&search.entries)?;
    search.entries.push(Entry::Lemma {
        lits: Clause::new(alloc),
        hints,
    })?;
    search.refuted = Some(empty);
    Ok(empty)
}

/// Adds a clause of the formula, where the empty clause hasn't followed yet.
fn give_open(alloc: Global, search: &mut Search, clause: &Clause) -> Result<(), OutOfMemory>
    requires search { IsSearch search.old }
    requires none { search.old.refuted ≡ None }
    requires in_range { IsWithin search.old.vars clause.now }
    ensures ease { OnOk result (IsAtEase search.new) }
    ensures vars { OnOk result (search.new.vars ≡ search.old.vars) }
    ensures grows { OnOk result (GrowsByClause search.old.entries clause.now search.new.entries) }
{
    search.back_to_root();
    let id = next_id(&search.entries)?;
    let own = Clause::from_slice(alloc, clause.as_slice())?;
    search.entries.push(Entry::Given(own))?;
    let is_false = hold(
        alloc,
        &mut search.premises,
        &mut search.gathered,
        clause,
        id,
    )?;
    search.from = search.queue.first();
    if !is_false {
        return Ok(());
    }
    refute(alloc, search, clause.as_slice(), id)?;
    Ok(())
}

/// Adds a clause of the formula.
pub fn give(alloc: Global, search: &mut Search, clause: &Clause) -> Result<(), OutOfMemory>
    requires ease { IsAtEase search.old }
    requires in_range { IsWithin search.old.vars clause.now }
    ensures ease { OnOk result (IsAtEase search.new) }
    ensures vars { OnOk result (search.new.vars ≡ search.old.vars) }
    ensures grows { OnOk result (GrowsByClause search.old.entries clause.now search.new.entries) }
{
    match search.refuted {
        None => give_open(alloc, search, clause),
        Some(_) => {
            let own = Clause::from_slice(alloc, clause.as_slice())?;
            search.entries.push(Entry::Given(own))?;
            Ok(())
        }
    }
}
