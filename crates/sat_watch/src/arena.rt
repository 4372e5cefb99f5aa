//! The literals of all clauses, one clause after another in one vector.

ghost use Rattle.std.specs.Prelude.{◌≡◌, ◌+◌, ◌<◌, ◌^◌, ◌++◌, ◌∷◌, [], length, slice_index_or, OnOk, OnErr};

use cnf_base::CnfLit;
use ketch_base::OutOfMemory;
use std::alloc::Global;
use std::marker::Model;

/// Places of literals take 32 bits: a list that would need more has no room.
const MOST_LITERALS: usize = 4_294_967_295;

/// From where up to where the literals of a clause stand.
#[derive(Clone, Copy, Debug)]
pub struct Span {
    pub start: u32,
    pub end: u32,
}

/// A list of clauses, where no clause takes memory of its own.
#[derive(Debug, Drop)]
pub struct Arena {
    lits: Vec<CnfLit>,
    spans: Vec<Span>,
}

impl Model for Arena {
    ghost use Rattle.std.specs.Prelude.{ℤ, List, All, length};
    ghost use Rattle.sat_watch.specs.Arena.{clauses_in, IsInside};

    ghost Value = { List (List ℤ) };

    ghost view = { λ a. clauses_in a.lits.items a.spans.items };

    ghost invariant = { λ a. All (IsInside (length a.lits.items)) a.spans.items };
}

impl Arena {
    /// Takes no memory; later calls of `push` take theirs from `alloc`.
    pub fn new(alloc: Global) -> Arena
        ensures { result ≡ [] }
    {
        Arena {
            lits: Vec::new(alloc),
            spans: Vec::new(alloc),
        }
    }

    pub fn len(&self) -> usize
        ensures { result ≡ length self.now }
    {
        self.spans.len()
    }

    #[inline]
    pub fn get(&self, place: usize) -> &[CnfLit]
        requires { place < length self.now }
        ensures clause { result.now ≡ slice_index_or self.now place result.now }
        ensures small { length result.now < 2 ^ 32 }
    {
        let span = self.spans[place];
        &self.lits[span.start as usize..span.end as usize]
    }

    /// Leaves the list as it was where it finds no memory.
    pub fn push(&mut self, lits: &[CnfLit]) -> Result<(), OutOfMemory>
        ensures ok { OnOk result (self.new ≡ self.old ++ lits.now ∷ []) }
        ensures err { OnErr result (self.new ≡ self.old) }
    {
        let start = self.lits.len();
        if lits.len() > MOST_LITERALS || start > MOST_LITERALS - lits.len() {
            return Err(OutOfMemory);
        }
        append(&mut self.lits, &mut self.spans, lits)?;
        Ok(())
    }
}

/// Where it finds no memory, both are as they were.
fn append(lits: &mut Vec<CnfLit>, spans: &mut Vec<Span>, more: &[CnfLit]) -> Result<(), OutOfMemory>
    requires { length lits.old.items + length more.now < 2 ^ 32 }
    ensures lits { OnOk result (lits.new.items ≡ lits.old.items ++ more.now) }
    ensures spans { OnOk result (spans.new.items ≡ spans.old.items
        ++ record { start = length lits.old.items; end = length lits.old.items + length more.now } ∷ []) }
    ensures lits_stay { OnErr result (lits.new.items ≡ lits.old.items) }
    ensures spans_stay { OnErr result (spans.new.items ≡ spans.old.items) }
{
    let start = lits.len();
    lits.extend_from_slice(more)?;
    let span = Span {
        start: start as u32,
        end: (start + more.len()) as u32,
    };
    if spans.push(span).is_err() {
        lits.truncate(start);
        return Err(OutOfMemory);
    }
    Ok(())
}
