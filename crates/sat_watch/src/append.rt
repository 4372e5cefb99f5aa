//! A clause more, and its watches.

ghost use Rattle.std.specs.Prelude.{◌≡◌, ℤ, List, ◌+◌, ◌^◌, ◌<◌, ◌++◌, ◌∷◌, [], OnOk, OnErr, length, take};
ghost use Rattle.sat_watch.specs.Book.{IsBookClause};
ghost use Rattle.sat_watch.specs.Kept.{IsPair, AreSized};
ghost use Rattle.sat_watch.specs.Links.{watch_lits, AreLinked};

use crate::arena::Arena;
use crate::choose::{Pair, choose, unlinked};
use crate::links::{Link, Watch, link_from};
use cnf_base::CnfLit;
use ketch_base::OutOfMemory;
use sat_trail::Trail;

/// Watches and the links to them take 32 bits: a book that would need more has no room.
const MOST_WATCHES: usize = 4_294_967_294;

/// Adds a clause and its watches at the end, which aren't linked yet. Where it finds no memory, all is as it was.
fn append(
    clauses: &mut Arena,
    watches: &mut Vec<Watch>,
    lits: &[CnfLit],
    pair: Pair,
) -> Result<(), OutOfMemory>
    ensures clauses { OnOk result (clauses.new ≡ clauses.old ++ lits.now ∷ []) }
    ensures watches { OnOk result (watch_lits watches.new.items ≡ watch_lits watches.old.items ++ pair.first ∷ pair.second ∷ []) }
    ensures old_watches { OnOk result (take (length watches.old.items) watches.new.items ≡ watches.old.items) }
    ensures few { OnOk result (length watches.new.items + 1 < 2 ^ 32) }
    ensures clauses_stay { OnErr result (clauses.new ≡ clauses.old) }
    ensures watches_stay { OnErr result (watches.new.items ≡ watches.old.items) }
{
    let count = watches.len();
    if count + 2 > MOST_WATCHES {
        return Err(OutOfMemory);
    }
    watches.extend_from_slice(&[unlinked(pair.first), unlinked(pair.second)])?;
    if let Err(error) = clauses.push(lits) {
        watches.truncate(count);
        return Err(error);
    }
    Ok(())
}

/// Adds a clause at the end, and links its watches. Where it finds no memory, all is as it was.
pub fn append_watched(
    clauses: &mut Arena,
    heads: &mut [Link],
    watches: &mut Vec<Watch>,
    lits: &[CnfLit],
    trail: &Trail,
) -> Result<(), OutOfMemory>
    requires clause { IsBookClause trail.now.vars lits.now }
    requires sizes { AreSized trail.now.vars clauses.old heads.old watches.old.items }
    requires linked { AreLinked heads.old watches.old.items }
    ensures clauses { OnOk result (clauses.new ≡ clauses.old ++ lits.now ∷ []) }
    ensures pair { OnOk result ((a : ℤ) × (b : ℤ) × (watch_lits watches.new.items ≡ watch_lits watches.old.items ++ a ∷ b ∷ []) × IsPair lits.now a b) }
    ensures linked { OnOk result (AreLinked heads.new watches.new.items) }
    ensures few { OnOk result (length watches.new.items + 1 < 2 ^ 32) }
    ensures clauses_stay { OnErr result (clauses.new ≡ clauses.old) }
    ensures heads_stay { OnErr result (heads.new ≡ heads.old) }
    ensures watches_stay { OnErr result (watches.new.items ≡ watches.old.items) }
{
    let count = watches.len();
    let pair = choose(trail, lits);
    append(clauses, watches, lits, pair)?;
    link_from(heads, watches, count);
    Ok(())
}
