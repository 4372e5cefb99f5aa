//! The checker: it is given the steps of a proof one at a time.

ghost use Rattle.std.specs.Prelude.{◌≡◌, ◌≢◌, ◌+◌, ◌<◌, ◌↔◌, [], None, IsOk, IfOk, IfErr, OnOk, OnErr, IsOkUnless, MatchResult};
ghost use Rattle.cnf_base.specs.Status.{is_tautology};
ghost use Rattle.lrat_text.specs.Accepted.{MayAdd, MayDelete};
ghost use Rattle.lrat_check.specs.Answers.{IsStepFault, IsDeleteFault};
ghost use Rattle.lrat_check.specs.FirstFault.{add_fault, delete_fault, step_fault};
ghost use Rattle.lrat_text.specs.Standing.{start, with_clause, with_deleted, after};

use crate::assumed::Assumed;
use crate::fault::{AddFault, ProofKind};
use crate::store::Store;
use crate::walk::{is_tautology, judge_lemma};
use cnf_base::{Clause, Formula};
use ketch_base::OutOfMemory;
use lrat_text::{Hints, Ids, LratStep};
use std::alloc::Global;
use std::marker::Model;

/// The live clauses and the greatest id used. It only grows: a deleted clause keeps its room.
#[derive(Debug, Drop)]
pub struct Checker {
    store: Store,
    assumed: Assumed,
}

impl Model for Checker {
    ghost use Rattle.std.specs.Prelude.{◌≡◌, []};
    ghost use Rattle.lrat_text.specs.Standing.{Standing};

    ghost Value = { Standing };

    ghost view = { λ c. c.store };

    ghost invariant = { λ c. c.assumed ≡ [] };
}

impl Checker {
    pub fn new(alloc: Global, formula: &Formula) -> Result<Checker, OutOfMemory>
        ensures { IfOk result (λ checker. checker ≡ start formula.now) }
    {
        let assumed = Assumed::new(alloc, formula.vars())?;
        let store = store_of(alloc, formula)?;
        Ok(Checker { store, assumed })
    }

    pub fn add(&mut self, id: u64, lits: &Clause, hints: &Hints) -> Result<(), AddFault>
        ensures ok { OnOk result (self.new ≡ with_clause self.old id lits.now) }
        ensures err { OnErr result (self.new ≡ self.old) }

        ensures allowed { OnOk result (MayAdd self.old id lits.now hints.now) }
        ensures refused { MayAdd self.old id lits.now hints.now → IsOkUnless result AddFault.OutOfMemory }
        ensures answer { MatchResult result
            (λ _. add_fault self.old id lits.now hints.now ≡ None)
            (IsStepFault (add_fault self.old id lits.now hints.now)) }
        ensures kinds { IfErr result (λ fault. fault ≢ AddFault.Kind ProofKind.NoEmpty) }
    {
        if id <= self.store.greatest() {
            return Err(AddFault::Kind(ProofKind::OldId));
        }
        if let Some(kind) = judge_lemma(
            &self.store,
            &mut self.assumed,
            lits.as_slice(),
            hints.as_slice(),
        )? {
            return Err(AddFault::Kind(kind));
        }
        self.store.push(id, lits.as_slice())?;
        Ok(())
    }

    /// Takes no memory. A refused deletion takes no clause away, however many it names.
    pub fn delete(&mut self, ids: &Ids) -> Result<(), AddFault>
        ensures ok { OnOk result (self.new ≡ with_deleted self.old ids.now) }
        ensures err { OnErr result (self.new ≡ self.old) }

        ensures allowed { IsOk result ↔ MayDelete self.old.live ids.now }
        ensures answer { MatchResult result
            (λ _. delete_fault self.old.live ids.now ≡ None)
            (IsDeleteFault (delete_fault self.old.live ids.now)) }
        ensures kinds { IfErr result (λ fault. fault ≢ AddFault.Kind ProofKind.NoEmpty) }
    {
        if let Err(kind) = self.store.remove_all(ids.as_slice()) {
            return Err(AddFault::Kind(kind));
        }
        Ok(())
    }

    /// Whether a clause has a literal both ways.
    pub(crate) fn is_tautology(&mut self, lits: &Clause) -> Result<bool, OutOfMemory>
        ensures value { IfOk result (λ both. both ≡ is_tautology lits.now) }
        ensures same { self.new ≡ self.old }
    {
        is_tautology(&mut self.assumed, lits.as_slice())
    }

    pub(crate) fn step(&mut self, step: &LratStep) -> Result<(), AddFault>
        ensures ok { OnOk result (self.new ≡ after self.old step.now) }
        ensures answer { MatchResult result (λ _. step_fault self.old step.now ≡ None) (IsStepFault (step_fault self.old step.now)) }
    {
        match step {
            LratStep::Add { id, lits, hints } => self.add(*id, lits, hints),
            LratStep::Delete { at: _, ids } => self.delete(ids),
        }
    }
}

/// The clauses of a formula under 1, 2, and so on.
fn store_of(alloc: Global, formula: &Formula) -> Result<Store, OutOfMemory>
    ensures { IfOk result (λ store. store ≡ start formula.now) }
{
    let mut store = Store::new(alloc);
    for (place, clause) in formula.clauses().as_slice().iter().enumerate() {
        store.push(place as u64 + 1, clause.as_slice())?;
    }
    Ok(store)
}
