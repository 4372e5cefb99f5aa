//! Lemmas for literals of level 0, on which later learned clauses rest.

ghost use Rattle.std.specs.Prelude.{◌≡◌, ◌<◌, ◌≤◌, ℕ, [], ◌∷◌, ◌++◌, neg_ℤ, IsTrue, Contains, length, OnOk};
ghost use Rattle.sat_trail.specs.Trail.{upto};
ghost use Rattle.sat_learn.specs.Reasons.{Follows};
ghost use Rattle.sat_learn.specs.Learned.{AreAtRoot};
ghost use Rattle.sat_watch.specs.Book.{marks};
ghost use Rattle.sat_solver.specs.Ledger.{live};
ghost use Rattle.sat_solver.specs.Sound.{root};
ghost use Rattle.sat_solver.specs.Steps.{IsSearchState};

use crate::refutation::next_id;
use crate::search::Search;
use cnf_base::{Clause, CnfLit, Formula};
use ketch_base::OutOfMemory;
use lrat_text::{Hints, LratStep};
use sat_trail::ClauseId;
use std::alloc::Global;

/// The most hints of a derivation that each learned clause resolves anew. A literal of level 0 with a longer one becomes a
/// lemma.
///
/// Measured beside timers that run freely from reset, the hints of a proof fell from 54,016 to 7,375 and from 410,625 to
/// 30,071, where 178 of 285 lemmas and 309 of 838 are such literals. A circuit has more literals of level 0 than a budget
/// has lemmas: so only those become lemmas that learned clauses need, and only where that saves hints. The lowest come
/// first, so that the derivations of those above are short.
const MOST_HINTS: usize = 8;

/// Makes a literal of level 0 a lemma, on which it rests from then on.
fn add_root_lemma(
    alloc: Global,
    formula: &Formula,
    search: &mut Search,
    lit: CnfLit,
    hints: Hints,
    lemmas: u64,
) -> Result<(), OutOfMemory>
    requires state { IsSearchState formula.now lemmas search.old }
    requires room { length search.old.steps < lemmas }
    requires root { (place : ℕ) × Contains search.old.premises.trail.assignments (root lit (ClauseId.Book place)) }
    requires follows { Follows (live formula.now search.old.steps) (neg_ℤ lit ∷ []) hints }
    ensures state { OnOk result (IsSearchState formula.now lemmas search.new) }
    ensures named { OnOk result ((id : ℕ) × (search.new.steps ≡ search.old.steps ++ LratStep.Add id (lit ∷ []) hints ∷ [])
        × Contains search.new.premises.trail.assignments (root lit (ClauseId.Unit id))) }
    ensures stays { OnOk result (marks search.new.premises.trail.assignments ≡ marks search.old.premises.trail.assignments) }
{
    let _ = lemmas;
    search.premises.trail.is_well_formed();
    search.premises.book.is_well_formed();
    let id = next_id(formula, &search.steps);
    let lemma = Clause::from_slice(alloc, &[lit])?;
    search.steps.push(LratStep::Add {
        id,
        lits: lemma,
        hints,
    })?;
    search
        .premises
        .trail
        .set_reason(lit.var(), ClauseId::Unit(id));
    Ok(())
}

/// Whether a lemma may come that no conflict taught: at least half of the budget goes to learned clauses.
fn has_room(search: &Search, lemmas: u64) -> bool
    requires { search.now.conflicts ≤ length search.now.steps }
    ensures { IsTrue result → length search.now.steps < lemmas }
{
    let steps = search.steps.len();
    let root_lemmas = (steps - search.conflicts) as u64;
    root_lemmas < lemmas / 2 && (steps as u64) < lemmas
}

/// Makes the literal at a place of level 0 a lemma, if its derivation is long and wasn't considered before, and the budget
/// has room.
fn consider(
    alloc: Global,
    formula: &Formula,
    search: &mut Search,
    place: u32,
    lemmas: u64,
) -> Result<(), OutOfMemory>
    requires state { IsSearchState formula.now lemmas search.old }
    requires at_root { place < length (upto 0 search.old.premises.trail.assignments) }
    ensures state { OnOk result (IsSearchState formula.now lemmas search.new) }
    ensures more { OnOk result (length search.old.steps ≤ length search.new.steps) }
    ensures stays { OnOk result (marks search.new.premises.trail.assignments ≡ marks search.old.premises.trail.assignments) }
{
    search.premises.trail.is_well_formed();
    if !has_room(search, lemmas) {
        return Ok(());
    }
    let lit = search.premises.trail.at(place);
    let Some(ClauseId::Book(_)) = search.premises.trail.reason_of(lit.var()) else {
        return Ok(());
    };
    if !search.considered.insert(lit.var()) {
        return Ok(());
    }
    let explained = search.analyzer.explain(&search.premises, place)?;
    if let Some(hints) = explained
        && hints.len() > MOST_HINTS
    {
        add_root_lemma(alloc, formula, search, lit, hints, lemmas)?;
    }
    Ok(())
}

/// Considers the literals at these places of level 0, which come from the last to the first.
pub fn add_root_lemmas(
    alloc: Global,
    formula: &Formula,
    search: &mut Search,
    roots: &[u32],
    lemmas: u64,
) -> Result<(), OutOfMemory>
    requires state { IsSearchState formula.now lemmas search.old }
    requires at_root { AreAtRoot search.old.premises.trail.assignments roots.now }
    ensures state { OnOk result (IsSearchState formula.now lemmas search.new) }
    ensures more { OnOk result (length search.old.steps ≤ length search.new.steps) }
    ensures stays { OnOk result (marks search.new.premises.trail.assignments ≡ marks search.old.premises.trail.assignments) }
{
    for place in roots.iter().rev() {
        consider(alloc, formula, search, *place, lemmas)?;
    }
    Ok(())
}
