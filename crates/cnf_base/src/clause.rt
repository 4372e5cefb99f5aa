//! Clauses.

ghost use Rattle.std.specs.Prelude.{◌≡◌, ◌<◌, ◌↔◌, ◌++◌, ◌∷◌, [], length, slice_index_or, IsTrue, IfOk, OnOk, OnErr};

use crate::held::{Held, as_slice, from_slice, with_one_more};
use crate::lit::CnfLit;
use ketch_base::{OutOfMemory, Sequence};
use std::alloc::Global;
use std::marker::Model;

/// A list of literals, of which one must be true. Up to three literals take no memory of their own.
#[derive(Debug, Drop)]
pub struct Clause {
    held: Held,
    alloc: Global,
}

impl Model for Clause {
    ghost use Rattle.std.specs.Prelude.{ℤ, List};
    ghost use Rattle.cnf_base.specs.Held.{lits_of};

    ghost Value = { List ℤ };

    ghost view = { λ c. lits_of c.held };
}

pub type Clauses = Sequence<Clause>;

impl Clause {
    /// Takes no memory; later calls of `push` take theirs from `alloc`.
    pub fn new(alloc: Global) -> Clause
        ensures { result ≡ [] }
    {
        Clause {
            held: Held::None,
            alloc,
        }
    }

    /// Takes as much memory as the literals need, and room for no more.
    pub fn from_slice(alloc: Global, lits: &[CnfLit]) -> Result<Clause, OutOfMemory>
        ensures { IfOk result (λ clause. clause ≡ lits.now) }
    {
        Ok(Clause {
            held: from_slice(alloc, lits)?,
            alloc,
        })
    }

    pub fn len(&self) -> usize
        ensures { result ≡ length self.now }
    {
        as_slice(&self.held).len()
    }

    pub fn is_empty(&self) -> bool
        ensures { IsTrue result ↔ (self.now ≡ []) }
    {
        as_slice(&self.held).is_empty()
    }

    pub fn get(&self, place: usize) -> &CnfLit
        requires { place < length self.now }
        ensures { result.now ≡ slice_index_or self.now place result.now }
    {
        &as_slice(&self.held)[place]
    }

    pub fn as_slice(&self) -> &[CnfLit]
        ensures { result.now ≡ self.now }
    {
        as_slice(&self.held)
    }

    /// Leaves the clause as it was where it finds no memory.
    pub fn push(&mut self, lit: CnfLit) -> Result<(), OutOfMemory>
        ensures ok { OnOk result (self.new ≡ self.old ++ lit ∷ []) }
        ensures err { OnErr result (self.new ≡ self.old) }
    {
        if let Held::Many(lits) = &mut self.held {
            lits.push(lit)?;
            return Ok(());
        }
        self.held = with_one_more(self.alloc, &self.held, lit)?;
        Ok(())
    }
}
