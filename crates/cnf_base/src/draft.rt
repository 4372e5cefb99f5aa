//! What was read of a formula so far.

ghost use Rattle.std.specs.Prelude.{◌≡◌, ◌≤◌, [], map};
ghost use Rattle.text_words.specs.Numbers.{integer_of};
ghost use Rattle.cnf_base.specs.Dimacs.{words_of};
ghost use Rattle.cnf_base.specs.Reading.{Leaves, with_number, with_numbers, formula_of, ended};

use crate::clause::Clause;
use crate::fault::DimacsKind;
use crate::formula::Formula;
use crate::lit::CnfLit;
use ketch_base::OutOfMemory;
use std::alloc::Global;
use std::marker::Model;
use text_words::{LineFault, Separators, Words, integer};

/// A formula whose clauses come word by word.
#[derive(Drop)]
pub struct Draft {
    formula: Formula,
    /// How many clauses are to come in all.
    limit: u32,
    /// The literals of the clause that has no 0 yet.
    begun: Vec<CnfLit>,
    alloc: Global,
}

impl Model for Draft {
    ghost use Rattle.cnf_base.specs.Reading.{Progress};
    ghost use Rattle.cnf_base.specs.Meaning.{IsWithin};

    ghost Value = { Progress };

    ghost view = { λ d. record {
      vars = d.formula.vars;
      limit = d.limit;
      clauses = d.formula.clauses;
      begun = d.begun.items;
    } };

    ghost invariant = { λ d. IsWithin d.formula.vars d.begun.items };
}

impl Draft {
    pub fn new(alloc: Global, vars: u32, limit: u32) -> Draft
        requires { vars ≤ 4000000 }
        ensures { result ≡ record { vars = vars; limit = limit; clauses = []; begun = [] } }
    {
        Draft {
            formula: Formula::new(alloc, vars),
            limit,
            begun: Vec::new(alloc),
            alloc,
        }
    }

    /// Takes the words of a line.
    pub fn take_line(&mut self, line: &[u8]) -> Result<(), LineFault<DimacsKind>>
        ensures { Leaves self.new result (with_numbers self.old (map integer_of (words_of line.now))) }
    {
        for word in Words::of_content(line, Separators::Blanks) {
            self.take_word(word)?;
        }
        Ok(())
    }

    fn take_word(&mut self, word: &[u8]) -> Result<(), LineFault<DimacsKind>>
        ensures { Leaves self.new result (with_number self.old (integer_of word.now)) }
    {
        let vars = u64::from(self.formula.vars());
        let Some(number) = integer(word) else {
            return Err(LineFault::Kind(DimacsKind::Literal));
        };
        if number.unsigned_abs() > vars {
            return Err(LineFault::Kind(DimacsKind::Literal));
        }
        if number == 0 {
            return self.end_clause();
        }
        self.begun.push(CnfLit::new(number as i32))?;
        Ok(())
    }

    fn end_clause(&mut self) -> Result<(), LineFault<DimacsKind>>
        ensures { Leaves self.new result (ended self.old) }
    {
        if self.formula.clauses().len() >= self.limit as usize {
            return Err(LineFault::Kind(DimacsKind::Count));
        }
        let clause = Clause::from_slice(self.alloc, self.begun.as_slice())?;
        self.formula.add(clause)?;
        self.begun.clear();
        Ok(())
    }

    /// The formula, where all its clauses have come.
    pub fn finish(self) -> Result<Formula, DimacsKind>
        ensures { result ≡ formula_of self }
    {
        if !self.begun.is_empty() {
            return Err(DimacsKind::Truncated);
        }
        if self.formula.clauses().len() < self.limit as usize {
            return Err(DimacsKind::Count);
        }
        Ok(self.formula)
    }
}
