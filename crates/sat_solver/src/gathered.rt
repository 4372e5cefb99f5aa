//! The literals of a clause, each once.

ghost use Rattle.std.specs.Prelude.{◌≡◌, ◌≤◌, ◌∷◌, ◌++◌, [], neg_ℤ, nat_abs, length, if◌then◌else◌, IsTrue, IsFalse, IfOk, OnOk};
ghost use Rattle.cnf_base.specs.Meaning.{IsWithin};
ghost use Rattle.cnf_base.specs.Status.{has};
ghost use Rattle.lrat_text.specs.Accepted.{IsBothWays};
ghost use Rattle.lrat_text.specs.Spent.{SameLiterals};
ghost use Rattle.sat_solver.specs.Gathered.{IsGathered};

use cnf_base::CnfLit;
use ketch_base::OutOfMemory;
use std::alloc::Global;

/// Literals over different variables, each of which is marked.
#[derive(Drop)]
pub struct Gathered {
    pub vars: u32,
    /// A mark for each literal, by its index.
    pub marks: Vec<bool>,
    pub lits: Vec<CnfLit>,
}

impl Gathered {
    /// Without a literal.
    pub fn new(alloc: Global, vars: u32) -> Result<Gathered, OutOfMemory>
        requires { vars ≤ 4000000 }
        ensures gathered { IfOk result IsGathered }
        ensures vars { IfOk result (λ gathered. gathered.vars ≡ vars) }
    {
        Ok(Gathered {
            vars,
            marks: vec![in alloc; false; 2 * vars as usize + 2]?,
            lits: Vec::new(alloc),
        })
    }

    fn clear(&mut self)
        requires { IsGathered self.old }
        ensures gathered { IsGathered self.new }
        ensures vars { self.new.vars ≡ self.old.vars }
        ensures empty { self.new.lits.items ≡ [] }
    {
        while let Some(lit) = self.lits.pop() {
            self.marks[lit.index()] = false;
        }
    }

    /// Takes a literal, unless it is there. False where its negation is.
    fn take(&mut self, lit: CnfLit) -> Result<bool, OutOfMemory>
        requires gathered { IsGathered self.old }
        requires in_range { nat_abs lit ≤ self.old.vars }
        ensures gathered { OnOk result (IsGathered self.new) }
        ensures vars { OnOk result (self.new.vars ≡ self.old.vars) }
        ensures fits { IfOk result (λ fits. IsTrue fits → self.new.lits.items ≡ (if has self.old.lits.items lit then self.old.lits.items else self.old.lits.items ++ lit ∷ [])) }
        ensures both_ways { IfOk result (λ fits. IsFalse fits → IsTrue (has self.old.lits.items (neg_ℤ lit))) }
    {
        prove!(lit.value() != 0);
        if self.marks[lit.negation().index()] {
            return Ok(false);
        }
        if !self.marks[lit.index()] {
            self.lits.push(lit)?;
            self.marks[lit.index()] = true;
        }
        Ok(true)
    }

    /// Takes the literals of a clause in place of those that are there. False where it has a literal both ways.
    pub fn gather(&mut self, clause: &[CnfLit]) -> Result<bool, OutOfMemory>
        requires gathered { IsGathered self.old }
        requires in_range { IsWithin self.old.vars clause.now }
        ensures gathered { OnOk result (IsGathered self.new) }
        ensures vars { OnOk result (self.new.vars ≡ self.old.vars) }
        ensures plain { IfOk result (λ plain. IsTrue plain → SameLiterals clause.now self.new.lits.items) }
        ensures whole { IfOk result (λ plain. IsTrue plain → length self.new.lits.items ≡ length clause.now → self.new.lits.items ≡ clause.now) }
        ensures both_ways { IfOk result (λ plain. IsFalse plain → IsBothWays clause.now) }
    {
        self.clear();
        for lit in clause {
            if !self.take(*lit)? {
                return Ok(false);
            }
        }
        Ok(true)
    }
}
