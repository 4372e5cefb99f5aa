//! The clauses that may be used, by their ids.

ghost use Rattle.std.specs.Prelude.{◌≡◌, ◌≢◌, ◌<◌, None, Some, [], ◌∷◌, ◌++◌, ◌+◌, OnOk, OnErr, IfErr, IfSome, IfNone, length, map, All, get_or, true, false};
ghost use Rattle.lrat_check.specs.FirstFault.{delete_fault};
ghost use Rattle.lrat_text.specs.Standing.{clause_at, with_clause, with_deleted};
ghost use Rattle.lrat_check.specs.StoredClauses.{IsRising, IsInside, live_of, is_alive, killed, killed_all, first_dead, revived, revived_by};

use crate::fault::ProofKind;
use cnf_base::CnfLit;
use ketch_base::OutOfMemory;
use std::alloc::Global;
use std::marker::Model;

/// A clause's literals are those from `start` up to `end` in the arena. A deleted clause keeps its entry and is dead.
#[derive(Clone, Copy, Debug, PartialEq, Eq)]
pub struct Entry {
    pub id: u64,
    pub start: usize,
    pub end: usize,
    pub alive: bool,
}

/// Ids rise from entry to entry, so an entry is found by its id with no index beside the entries.
#[derive(Debug, Drop)]
pub struct Store {
    arena: Vec<CnfLit>,
    entries: Vec<Entry>,
    greatest: u64,
}

impl Model for Store {
    ghost use Rattle.lrat_text.specs.Standing.{Standing};
    ghost use Rattle.lrat_check.specs.StoredClauses.{live_of, IsStore};

    ghost Value = { Standing };

    ghost view = { λ s. record { live = live_of s.arena.items s.entries.items; greatest = s.greatest } };

    ghost invariant = { λ s. IsStore s.arena.items s.entries.items s.greatest };
}

/// The place of the entry of an id. Where the ids have no gap, the first look finds it.
fn place_of(entries: &[Entry], id: u64) -> Option<usize>
    requires { IsRising entries.now }
    ensures found { IfSome result (λ place. place < length entries.now) }
    ensures id { IfSome result (λ place. (d : Entry) → (get_or entries.now place d).id ≡ id) }
    ensures none { IfNone result (All (λ e. e.id ≢ id) entries.now) }
{
    let guess = id.wrapping_sub(1) as usize;
    if guess < entries.len() && entries[guess].id == id {
        return Some(guess);
    }
    let mut low = 0;
    let mut high = entries.len();
    while low < high {
        let middle = low + (high - low) / 2;
        let found = entries[middle].id;
        if found == id {
            return Some(middle);
        }
        if found < id {
            low = middle + 1;
        } else {
            high = middle;
        }
    }
    None
}

fn live_clause<'a>(arena: &'a [CnfLit], entries: &[Entry], id: u64) -> Option<&'a [CnfLit]>
    requires rising { IsRising entries.now }
    requires inside { All (IsInside (length arena.now)) entries.now }
    ensures some { IfSome result (λ lits. clause_at (live_of arena.now entries.now) id ≡ Some lits.now) }
    ensures none { IfNone result (clause_at (live_of arena.now entries.now) id ≡ None) }
{
    let Some(place) = place_of(entries, id) else {
        return None;
    };
    let entry = entries[place];
    if entry.alive {
        Some(&arena[entry.start..entry.end])
    } else {
        None
    }
}

fn append(
    arena: &mut Vec<CnfLit>,
    entries: &mut Vec<Entry>,
    id: u64,
    lits: &[CnfLit],
) -> Result<(), OutOfMemory>
    ensures arena { OnOk result (arena.new.items ≡ arena.old.items ++ lits.now) }
    ensures entries { OnOk result (entries.new.items ≡ entries.old.items
        ++ record { id = id; start = length arena.old.items; end = length arena.old.items + length lits.now; alive = true } ∷ []) }
    ensures err { OnErr result ((arena.new.items ≡ arena.old.items) × (entries.new.items ≡ entries.old.items)) }
{
    let start = arena.len();
    arena.extend_from_slice(lits)?;
    let entry = Entry {
        id,
        start,
        end: arena.len(),
        alive: true,
    };
    if entries.push(entry).is_err() {
        arena.truncate(start);
        return Err(OutOfMemory);
    }
    Ok(())
}

/// Whether the entry of an id is alive; it is dead afterwards.
fn kill(entries: &mut [Entry], id: u64) -> bool
    requires { IsRising entries.old }
    ensures was { result ≡ is_alive entries.old id }
    ensures after { entries.new ≡ map (killed id) entries.old }
{
    let Some(place) = place_of(entries, id) else {
        return false;
    };
    let was = entries[place].alive;
    entries[place].alive = false;
    was
}

fn revive(entries: &mut [Entry], id: u64)
    requires { IsRising entries.old }
    ensures { entries.new ≡ map (revived id) entries.old }
{
    if let Some(place) = place_of(entries, id) {
        entries[place].alive = true;
    }
}

fn revive_all(entries: &mut [Entry], ids: &[u64])
    requires { IsRising entries.old }
    ensures { entries.new ≡ map (revived_by ids.now) entries.old }
{
    for id in ids {
        revive(entries, *id);
    }
}

/// All or nothing: where an id in turn has no live entry, those before it are alive again.
fn kill_all(entries: &mut [Entry], ids: &[u64]) -> Result<(), u64>
    requires { IsRising entries.old }
    ensures ok { OnOk result (entries.new ≡ killed_all entries.old ids.now) }
    ensures alive { OnOk result (first_dead entries.old ids.now ≡ None) }
    ensures dead { IfErr result (λ id. first_dead entries.old ids.now ≡ Some id) }
    ensures err { OnErr result (entries.new ≡ entries.old) }
{
    for (place, id) in ids.iter().enumerate() {
        if !kill(entries, *id) {
            revive_all(entries, &ids[..place]);
            return Err(*id);
        }
    }
    Ok(())
}

impl Store {
    /// Takes no memory; later calls of `push` take theirs from `alloc`.
    pub fn new(alloc: Global) -> Store
        ensures { result ≡ record { live = []; greatest = 0 } }
    {
        Store {
            arena: Vec::new(alloc),
            entries: Vec::new(alloc),
            greatest: 0,
        }
    }

    pub fn greatest(&self) -> u64
        ensures { result ≡ self.now.greatest }
    {
        self.greatest
    }

    pub fn clause(&self, id: u64) -> Option<&[CnfLit]>
        ensures some { IfSome result (λ lits. clause_at self.now.live id ≡ Some lits.now) }
        ensures none { IfNone result (clause_at self.now.live id ≡ None) }
    {
        live_clause(&self.arena, &self.entries, id)
    }

    pub fn push(&mut self, id: u64, lits: &[CnfLit]) -> Result<(), OutOfMemory>
        requires { self.old.greatest < id }
        ensures ok { OnOk result (self.new ≡ with_clause self.old id lits.now) }
        ensures err { OnErr result (self.new ≡ self.old) }
    {
        append(&mut self.arena, &mut self.entries, id, lits)?;
        self.greatest = id;
        Ok(())
    }

    /// Takes the clauses of these ids away, or none where an id in turn has none.
    pub fn remove_all(&mut self, ids: &[u64]) -> Result<(), ProofKind>
        ensures ok { OnOk result (self.new ≡ with_deleted self.old ids.now) }
        ensures faultless { OnOk result (delete_fault self.old.live ids.now ≡ None) }
        ensures fault { IfErr result (λ kind. delete_fault self.old.live ids.now ≡ Some kind) }
        ensures err { OnErr result (self.new ≡ self.old) }
    {
        if let Err(id) = kill_all(&mut self.entries, ids) {
            return Err(ProofKind::UnknownId { id });
        }
        Ok(())
    }
}
