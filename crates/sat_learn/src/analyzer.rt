//! Learning from a conflict.

ghost use Rattle.std.specs.Prelude.{◌≡◌, [], ◌<◌, ◌≤◌, ◌-◌, ◌^◌, ℕ, ℤ, List, length, map, neg_ℤ, All, IfOk, IfSome, IsSome};
ghost use Rattle.cnf_base.specs.Status.{IsFalsifiedIn};
ghost use Rattle.sat_trail.specs.Trail.{Assignment, lits, upto};
ghost use Rattle.sat_learn.specs.Premises.{AreLive, IsExplanationIn};
ghost use Rattle.sat_learn.specs.Reasons.{AreReasons, HasId, Follows};
ghost use Rattle.sat_learn.specs.Resolving.{StandsAt};
ghost use Rattle.sat_learn.specs.Implying.{ImpliesByDecisions};
ghost use Rattle.sat_learn.specs.Learned.{IsLearned};

use crate::explanation::explain_marked;
use crate::implication::{Implication, trace};
use crate::learned_clause::LearnedClause;
use crate::minimize::Visit;
use crate::premises::Premises;
use crate::resolution::{refute_marked, resolve_conflict};
use crate::root_places::RootPlaces;
use cnf_base::CnfLit;
use ketch_base::OutOfMemory;
use lrat_text::Hints;
use std::alloc::Global;
use std::marker::Model;

/// Resolves conflicts over the variables 1 to `vars`, at most 4,000,000, which contracts see as that number.
#[derive(Debug, Drop)]
pub struct Analyzer {
    vars: u32,
    alloc: Global,
    marks: Vec<bool>,
    visits: Vec<Visit>,
    places: RootPlaces,
}

impl Model for Analyzer {
    ghost use Rattle.std.specs.Prelude.{◌≡◌, ℕ, ◌+◌, false, replicate, ◌≤◌};
    ghost use Rattle.sat_learn.specs.declared.minimize.Visit.TheVariants.{Unknown};

    ghost Value = { ℕ };

    ghost view = { λ l. l.vars };

    ghost invariant = { λ l. (l.vars ≤ 4000000) × (l.marks.items ≡ replicate (l.vars + 1) false)
        × (l.visits.items ≡ replicate (l.vars + 1) Unknown) };
}

impl Analyzer {
    pub fn new(alloc: Global, vars: u32) -> Result<Analyzer, OutOfMemory>
        requires { vars ≤ 4000000 }
        ensures { IfOk result (λ analyzer. analyzer ≡ vars) }
    {
        let marks = vec![in alloc; false; vars as usize + 1]?;
        let visits = vec![in alloc; Visit::Unknown; vars as usize + 1]?;
        let places = RootPlaces::new(alloc, vars)?;
        Ok(Analyzer {
            vars,
            alloc,
            marks,
            visits,
            places,
        })
    }

    /// The clause to learn from one that is false, above level 0, where the literals below the present level don't make
    /// it false. `id` is its id in the proof, and `proof_ids` has the ids of the book's clauses.
    pub fn analyze(
        &mut self,
        premises: &Premises,
        conflict: &[CnfLit],
        id: u64,
    ) -> Result<LearnedClause, OutOfMemory>
        requires vars { premises.now.trail.vars ≡ self.old }
        requires above { 0 < premises.now.trail.level }
        requires reasons { AreReasons premises.now.book.clauses [] premises.now.trail.assignments }
        requires proof_ids { length premises.now.proof_ids.items ≡ length premises.now.book.clauses }
        requires small_ids { All (λ name. name < 2 ^ 62) premises.now.proof_ids.items }
        requires small { id < 2 ^ 62 }
        requires false_now { IsFalsifiedIn (lits premises.now.trail.assignments) conflict.now }
        requires not_before { ¬ IsFalsifiedIn (lits (upto (premises.now.trail.level - 1) premises.now.trail.assignments)) conflict.now }
        ensures vars { self.new ≡ self.old }
        ensures learned { IfOk result (IsLearned premises.now.trail) }
        ensures follows { IfOk result (λ learned. (live : List (ℕ × List ℤ)) → AreLive live premises.now
            → HasId live id conflict.now → Follows live (map neg_ℤ learned.lits) learned.hints) }
    {
        premises.trail.is_well_formed();
        self.places.note(&premises.trail);
        match resolve_conflict(
            self.alloc,
            premises,
            &self.places,
            &mut self.marks,
            &mut self.visits,
            conflict,
            id as i64,
        ) {
            Ok(learned) => Ok(learned),
            Err(OutOfMemory) => {
                self.marks.fill(false);
                self.visits.fill(Visit::Unknown);
                Err(OutOfMemory)
            }
        }
    }

    /// The hints by which the empty clause follows from one that is false at level 0.
    pub fn refute(
        &mut self,
        premises: &Premises,
        conflict: &[CnfLit],
        id: u64,
    ) -> Result<Hints, OutOfMemory>
        requires vars { premises.now.trail.vars ≡ self.old }
        requires at_root { premises.now.trail.level ≡ 0 }
        requires reasons { AreReasons premises.now.book.clauses [] premises.now.trail.assignments }
        requires proof_ids { length premises.now.proof_ids.items ≡ length premises.now.book.clauses }
        requires small_ids { All (λ name. name < 2 ^ 62) premises.now.proof_ids.items }
        requires small { id < 2 ^ 62 }
        requires false_now { IsFalsifiedIn (lits premises.now.trail.assignments) conflict.now }
        ensures vars { self.new ≡ self.old }
        ensures follows { IfOk result (λ hints. (live : List (ℕ × List ℤ)) → AreLive live premises.now
            → HasId live id conflict.now → Follows live [] hints) }
    {
        premises.trail.is_well_formed();
        self.places.note(&premises.trail);
        match refute_marked(
            self.alloc,
            premises,
            &self.places,
            &mut self.marks,
            conflict,
            id as i64,
        ) {
            Ok(hints) => Ok(hints),
            Err(OutOfMemory) => {
                self.marks.fill(false);
                Err(OutOfMemory)
            }
        }
    }

    /// The hints for the unit clause of the literal at this place of the trail, which is of level 0. None where the clauses
    /// that imply it go more than 500 deep.
    pub fn explain(&mut self, premises: &Premises, place: u32) -> Result<Option<Hints>, OutOfMemory>
        requires vars { premises.now.trail.vars ≡ self.old }
        requires reasons { AreReasons premises.now.book.clauses [] premises.now.trail.assignments }
        requires proof_ids { length premises.now.proof_ids.items ≡ length premises.now.book.clauses }
        requires small_ids { All (λ name. name < 2 ^ 62) premises.now.proof_ids.items }
        requires at_root { place < length (upto 0 premises.now.trail.assignments) }
        ensures vars { self.new ≡ self.old }
        ensures follows { IfOk result (λ found. IfSome found (IsExplanationIn premises.now place)) }
    {
        premises.trail.is_well_formed();
        match explain_marked(self.alloc, premises, &mut self.marks, place) {
            Ok(found) => Ok(found),
            Err(OutOfMemory) => {
                self.marks.fill(false);
                Err(OutOfMemory)
            }
        }
    }

    /// The clause of a true literal that is no decision, and of the negations of decisions that imply it.
    pub fn imply(&mut self, premises: &Premises, lit: CnfLit) -> Result<Implication, OutOfMemory>
        requires vars { premises.now.trail.vars ≡ self.old }
        requires reasons { AreReasons premises.now.book.clauses [] premises.now.trail.assignments }
        requires proof_ids { length premises.now.proof_ids.items ≡ length premises.now.book.clauses }
        requires small_ids { All (λ name. name < 2 ^ 62) premises.now.proof_ids.items }
        requires implied { (place : ℕ) × (p : Assignment) × StandsAt premises.now.trail.assignments place p × (p.lit ≡ lit) × IsSome p.reason }
        ensures vars { self.new ≡ self.old }
        ensures implication { IfOk result (λ found. ImpliesByDecisions premises.now.trail.assignments lit found.lits.items) }
        ensures follows { IfOk result (λ found. (live : List (ℕ × List ℤ)) → AreLive live premises.now → Follows live (map neg_ℤ found.lits.items) found.hints) }
    {
        premises.trail.is_well_formed();
        premises.trail.is_well_formed();
        let found = trace(self.alloc, premises, &mut self.marks, lit);
        self.marks.fill(false);
        found
    }
}
