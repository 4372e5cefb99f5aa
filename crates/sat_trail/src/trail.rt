//! The trail.

ghost use Rattle.std.specs.Prelude.{◌≡◌, ◌+◌, ◌<◌, ◌≤◌, ◌++◌, ◌∷◌, [], min, length, nat_abs, slice_index, slice_index_or, option_map, option_and_then, Some, None, IsSome, map, IfOk, IsTrue, ◌↔◌};
ghost use Rattle.sat_trail.specs.Trail.{Assignment, lits, levels, upto, value_in, assignment_of, with_reason, IsTrail};

use crate::cause::Cause;
use crate::clause_id::ClauseId;
use crate::reason::{assumed, decided, reason};
use crate::truth::Value;
use crate::values::{between, set_values, unset_all};
use cnf_base::CnfLit;
use ketch_base::OutOfMemory;
use std::alloc::Global;
use std::marker::Model;

/// The literals that are true, in the order in which they were put, each with its level and its reason.
///
/// Variables go from 1 to `vars`, at most 4,000,000. `new` takes all room that a trail ever needs.
#[derive(Debug, Drop)]
pub struct Trail {
    vars: u32,
    count: u32,
    level: u32,
    low: u32,
    lits: Vec<CnfLit>,
    values: Vec<Value>,
    causes: Vec<Cause>,
    ends: Vec<u32>,
}

impl Model for Trail {
    ghost use Rattle.sat_trail.specs.Trail.{TrailState};
    ghost use Rattle.sat_trail.specs.Kept.{state_of, IsKept};

    ghost Value = { TrailState };

    ghost view = { λ t. state_of t.vars t.count t.level t.low t.causes.items t.lits.items };

    ghost invariant = { λ t. IsKept (state_of t.vars t.count t.level t.low t.causes.items t.lits.items)
        t.count t.lits.items t.values.items t.causes.items t.ends.items };
}

impl Trail {
    pub fn new(alloc: Global, vars: u32) -> Result<Trail, OutOfMemory>
        requires { vars ≤ 4000000 }
        ensures { IfOk result (λ t. t ≡ record { vars = vars; assignments = []; level = 0; low = 0 }) }
    {
        let places = vars as usize;
        let none = decided(0);
        let lits = vec![in alloc; CnfLit::new(1); places]?;
        let values = vec![in alloc; Value::Unset; 2 * places + 2]?;
        let causes = vec![in alloc; none; places + 1]?;
        let ends = vec![in alloc; 0; places]?;
        Ok(Trail {
            vars,
            count: 0,
            level: 0,
            low: 0,
            lits,
            values,
            causes,
            ends,
        })
    }

    /// Says that levels, reasons and values agree with the assigned literals.
    pub fn is_well_formed(&self)
        ensures { IsTrail self.now }
    {
        let _ = &self.vars;
    }

    /// The variables are 1 up to this number.
    pub fn vars(&self) -> u32
        ensures value { result ≡ self.now.vars }
        ensures well_formed { IsTrail self.now }
    {
        self.vars
    }

    /// Begins a level with this literal.
    pub fn decide(&mut self, lit: CnfLit)
        requires in_range { nat_abs lit ≤ self.old.vars }
        requires unset { value_in (lits self.old.assignments) lit ≡ Value.Unset }
        ensures { let level = self.old.level + 1 in
            self.new ≡ record self.old { assignments = self.old.assignments ++ record { lit = lit; level = level; reason = None } ∷ []; level = level } }
    {
        let place = lit.var() as usize;
        self.ends[self.level as usize] = self.count;
        self.level += 1;
        self.causes[place] = decided(self.level);
        self.lits[self.count as usize] = lit;
        self.count += 1;
        set_values(&mut self.values, lit, Value::True, Value::False);
    }

    /// Puts this literal at the present level, for a reason.
    pub fn assume(&mut self, lit: CnfLit, reason: ClauseId)
        requires in_range { nat_abs lit ≤ self.old.vars }
        requires unset { value_in (lits self.old.assignments) lit ≡ Value.Unset }
        ensures { self.new ≡ record self.old { assignments = self.old.assignments ++ record { lit = lit; level = self.old.level; reason = Some reason } ∷ [] } }
    {
        let place = lit.var() as usize;
        self.causes[place] = assumed(self.level, reason);
        self.lits[self.count as usize] = lit;
        self.count += 1;
        set_values(&mut self.values, lit, Value::True, Value::False);
    }

    /// Gives an assigned literal that isn't a decision another reason.
    pub fn set_reason(&mut self, var: u32, reason: ClauseId)
        requires not_zero { 0 < var }
        requires in_range { var ≤ self.old.vars }
        requires forced { (p : Assignment) × (assignment_of var self.old.assignments ≡ Some p) × IsSome p.reason }
        ensures { self.new ≡ record self.old { assignments = map (with_reason var reason) self.old.assignments } }
    {
        let place = var as usize;
        let level = self.causes[place].level;
        self.causes[place] = assumed(level, reason);
    }

    /// Takes off every literal above this level.
    pub fn back_to(&mut self, level: u32)
        requires { level ≤ self.old.level }
        ensures { let assignments = upto level self.old.assignments in
            self.new ≡ record self.old { assignments = assignments; level = level; low = min self.old.low (length assignments) } }
    {
        if level < self.level {
            self.cut(level);
        }
    }

    fn cut(&mut self, level: u32)
        requires { level < self.old.level }
        ensures { let assignments = upto level self.old.assignments in
            self.new ≡ record self.old { assignments = assignments; level = level; low = min self.old.low (length assignments) } }
    {
        let end = self.ends[level as usize];
        unset_all(&mut self.values, between(&self.lits, end, self.count));
        self.count = end;
        self.level = level;
        self.low = self.low.min(end);
    }

    #[inline]
    pub fn value(&self, lit: CnfLit) -> Value
        requires { nat_abs lit ≤ self.now.vars }
        ensures { result ≡ value_in (lits self.now.assignments) lit }
    {
        self.values[lit.index()]
    }

    /// None exactly where the variable is unassigned.
    #[inline]
    pub fn level_of(&self, var: u32) -> Option<u32>
        requires not_zero { 0 < var }
        requires in_range { var ≤ self.now.vars }
        ensures { result ≡ option_map (λ p. p.level) (assignment_of var self.now.assignments) }
    {
        match self.values[2 * var as usize] {
            Value::Unset => None,
            _ => Some(self.causes[var as usize].level),
        }
    }

    /// None exactly where the variable is unassigned or was put by `decide`.
    #[inline]
    pub fn reason_of(&self, var: u32) -> Option<ClauseId>
        requires not_zero { 0 < var }
        requires in_range { var ≤ self.now.vars }
        ensures { result ≡ option_and_then (λ p. p.reason) (assignment_of var self.now.assignments) }
    {
        match self.values[2 * var as usize] {
            Value::Unset => None,
            _ => reason(self.causes[var as usize]),
        }
    }

    pub fn level(&self) -> u32
        ensures { result ≡ self.now.level }
    {
        self.level
    }

    /// How many literals the trail holds.
    pub fn len(&self) -> u32
        ensures value { result ≡ length self.now.assignments }
        ensures at_most { result ≤ self.now.vars }
        ensures well_formed { IsTrail self.now }
    {
        self.count
    }

    /// How many literals the trail holds up to this level.
    pub fn len_upto(&self, level: u32) -> u32
        requires { level ≤ self.now.level }
        ensures { result ≡ length (upto level self.now.assignments) }
    {
        if level < self.level {
            self.ends[level as usize]
        } else {
            self.count
        }
    }

    pub fn is_empty(&self) -> bool
        ensures { IsTrue result ↔ (self.now.assignments ≡ []) }
    {
        self.count == 0
    }

    /// In the order in which they were put.
    pub fn literals(&self) -> &[CnfLit]
        ensures { result.now ≡ lits self.now.assignments }
    {
        between(&self.lits, 0, self.count)
    }

    /// The literals stand in the order in which they were put.
    #[inline]
    pub fn at(&self, place: u32) -> CnfLit
        requires { place < length self.now.assignments }
        ensures { result ≡ slice_index_or (lits self.now.assignments) place result }
    {
        self.lits[place as usize]
    }

    /// The level of the literal at this place.
    pub fn level_at(&self, place: u32) -> u32
        requires { place < length self.now.assignments }
        ensures { result ≡ slice_index (levels self.now.assignments) place }
    {
        let lit = self.lits[place as usize];
        self.causes[lit.var() as usize].level
    }

    /// The least number of literals that the trail has held since the last `mark`, or else since it was made.
    pub fn low(&self) -> u32
        ensures value { result ≡ self.now.low }
        ensures at_most { result ≤ length self.now.assignments }
    {
        self.low
    }

    /// Makes `low` equal to `len`.
    pub fn mark(&mut self)
        ensures { self.new ≡ record self.old { low = length self.old.assignments } }
    {
        self.low = self.count;
    }
}
