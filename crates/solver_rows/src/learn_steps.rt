//! A book, its trail and what is learned from them, step by step.

ghost use Rattle.std.specs.Prelude.{◌≡◌, ◌<◌, ◌^◌, [], All, IsTrue, IfOk};
ghost use Rattle.sat_trail.specs.Trail.{lits};
ghost use Rattle.sat_watch.specs.Book.{ScanIs};
ghost use Rattle.sat_watch.specs.Ready.{IsReady, IsSettled};
ghost use Rattle.sat_learn.specs.Reasons.{AreReasons};

use crate::book_clauses::lit;
use crate::book_steps::is_quiet;
use lrat_text::Hints;
use sat_learn::{Analyzer, LearnedClause, Premises};
use sat_trail::{ClauseId, Trail, Value};
use sat_watch::{ClauseBook, Scan};
use std::alloc::Global;
use std::process::Abort;
use std::test::Fail;

/// A new trail is ready.
pub fn begin(book: &ClauseBook, trail: &Trail)
    requires { trail.now ≡ record { vars = book.now.vars; assignments = []; level = 0; low = 0 } }
    ensures ready { IsReady book.now trail.now }
    ensures reasons { AreReasons book.now.clauses [] trail.now.assignments }
{
    let _ = book;
    let _ = trail;
}

/// Assigns the literal of a unit clause at level 0.
pub fn assume(rt: &impl Abort, book: &ClauseBook, trail: &mut Trail, value: i32, id: u64)
    requires ready { IsReady book.now trail.old }
    requires reasons { AreReasons book.now.clauses [] trail.old.assignments }
    ensures ready { IsReady book.now trail.new }
    ensures reasons { AreReasons book.now.clauses [] trail.new.assignments }
    ensures vars { trail.new.vars ≡ trail.old.vars }
{
    let unit = lit(rt, value);
    assert!(rt; trail.level() == 0);
    assert!(rt; id < 1 << 62);
    assert!(rt; unit.var() <= trail.vars());
    let unset = trail.value(unit) == Value::Unset;
    assert!(rt; unset);
    trail.assume(unit, ClauseId::Unit(id));
    let _ = book;
}

fn decide(rt: &impl Abort, book: &ClauseBook, trail: &mut Trail, value: i32)
    requires settled { IsSettled book.now trail.old }
    requires reasons { AreReasons book.now.clauses [] trail.old.assignments }
    ensures ready { IsReady book.now trail.new }
    ensures reasons { AreReasons book.now.clauses [] trail.new.assignments }
    ensures vars { trail.new.vars ≡ trail.old.vars }
{
    let decision = lit(rt, value);
    assert!(rt; decision.var() <= trail.vars());
    let unset = trail.value(decision) == Value::Unset;
    assert!(rt; unset);
    trail.decide(decision);
    let _ = book;
}

pub fn propagate(book: &mut ClauseBook, trail: &mut Trail) -> Scan
    requires ready { IsReady book.old trail.old }
    requires reasons { AreReasons book.old.clauses [] trail.old.assignments }
    ensures ready { IsReady book.new trail.new }
    ensures reasons { AreReasons book.new.clauses [] trail.new.assignments }
    ensures settled { result ≡ Scan.Quiet → IsSettled book.new trail.new }
    ensures answer { ScanIs book.new.clauses (lits trail.new.assignments) result }
    ensures vars { trail.new.vars ≡ trail.old.vars }
{
    let scan = book.propagate(trail);
    let _ = trail.vars();
    scan
}

pub fn conflict_of(rt: &impl Abort, scan: Scan) -> ClauseId
    ensures { scan ≡ Scan.Conflict result }
{
    match scan {
        Scan::Quiet => panic!(rt; "no clause is false"),
        Scan::Conflict(id) => id,
    }
}

/// Propagates, by which no clause is to be false, and decides.
pub fn decide_next(rt: &impl Abort, book: &mut ClauseBook, trail: &mut Trail, value: i32)
    requires ready { IsReady book.old trail.old }
    requires reasons { AreReasons book.old.clauses [] trail.old.assignments }
    ensures ready { IsReady book.new trail.new }
    ensures reasons { AreReasons book.new.clauses [] trail.new.assignments }
    ensures vars { trail.new.vars ≡ trail.old.vars }
{
    let scan = propagate(book, trail);
    assert!(rt; is_quiet(scan));
    decide(rt, book, trail, value);
}

/// Propagates, and names the clause that is to be false.
pub fn conflict_in(rt: &impl Abort, book: &mut ClauseBook, trail: &mut Trail) -> ClauseId
    requires ready { IsReady book.old trail.old }
    requires reasons { AreReasons book.old.clauses [] trail.old.assignments }
    ensures ready { IsReady book.new trail.new }
    ensures reasons { AreReasons book.new.clauses [] trail.new.assignments }
    ensures conflict { ScanIs book.new.clauses (lits trail.new.assignments) (Scan.Conflict result) }
    ensures vars { trail.new.vars ≡ trail.old.vars }
{
    let scan = propagate(book, trail);
    conflict_of(rt, scan)
}

fn are_small(proof_ids: &[u64]) -> bool
    ensures { IsTrue result → All (λ name. name < 2 ^ 62) proof_ids.now }
{
    for name in proof_ids {
        if *name >= 1 << 62 {
            return false;
        }
    }
    true
}

/// A trail and a book, whose clauses have these ids in a proof.
pub fn premises_of(
    alloc: Global,
    trail: Trail,
    book: ClauseBook,
    proof_ids: &[u64],
) -> Result<Premises, Fail>
    ensures trail { IfOk result (λ p. p.trail ≡ trail) }
    ensures book { IfOk result (λ p. p.book ≡ book) }
{
    Ok(Premises {
        trail,
        book,
        proof_ids: Vec::from_slice(alloc, proof_ids)?,
    })
}

pub fn analyze(
    rt: &impl Abort,
    analyzer: &mut Analyzer,
    premises: &Premises,
    conflict: ClauseId,
    id: u64,
) -> Result<LearnedClause, Fail>
    requires vars { premises.now.trail.vars ≡ analyzer.old }
    requires ready { IsReady premises.now.book premises.now.trail }
    requires reasons { AreReasons premises.now.book.clauses [] premises.now.trail.assignments }
    requires conflict { ScanIs premises.now.book.clauses (lits premises.now.trail.assignments) (Scan.Conflict conflict) }
    ensures { analyzer.new ≡ analyzer.old }
{
    assert!(rt; premises.trail.level() > 0);
    assert!(rt; id < 1 << 62);
    assert!(rt; premises.proof_ids.len() == premises.book.len());
    let small = are_small(&premises.proof_ids);
    assert!(rt; small);
    let learned = analyzer.analyze(premises, premises.book.clause(conflict), id)?;
    Ok(learned)
}

pub fn refute(
    rt: &impl Abort,
    analyzer: &mut Analyzer,
    premises: &Premises,
    conflict: ClauseId,
    id: u64,
) -> Result<Hints, Fail>
    requires vars { premises.now.trail.vars ≡ analyzer.old }
    requires reasons { AreReasons premises.now.book.clauses [] premises.now.trail.assignments }
    requires conflict { ScanIs premises.now.book.clauses (lits premises.now.trail.assignments) (Scan.Conflict conflict) }
    ensures { analyzer.new ≡ analyzer.old }
{
    assert!(rt; premises.trail.level() == 0);
    assert!(rt; id < 1 << 62);
    assert!(rt; premises.proof_ids.len() == premises.book.len());
    let small = are_small(&premises.proof_ids);
    assert!(rt; small);
    let hints = analyzer.refute(premises, premises.book.clause(conflict), id)?;
    Ok(hints)
}

pub fn explain(
    rt: &impl Abort,
    analyzer: &mut Analyzer,
    premises: &Premises,
    place: u32,
) -> Result<Option<Vec<i64>>, Fail>
    requires vars { premises.now.trail.vars ≡ analyzer.old }
    requires reasons { AreReasons premises.now.book.clauses [] premises.now.trail.assignments }
    ensures { analyzer.new ≡ analyzer.old }
{
    assert!(rt; place < premises.trail.len_upto(0));
    assert!(rt; premises.proof_ids.len() == premises.book.len());
    let small = are_small(&premises.proof_ids);
    assert!(rt; small);
    match analyzer.explain(premises, place)? {
        Some(hints) => Ok(Some(hints.into_vec())),
        None => Ok(None),
    }
}

/// Whether a place of the root is explained by these hints.
pub fn is_explained(
    rt: &impl Abort,
    analyzer: &mut Analyzer,
    premises: &Premises,
    place: u32,
    wanted: &[i64],
) -> Result<bool, Fail>
    requires vars { premises.now.trail.vars ≡ analyzer.old }
    requires reasons { AreReasons premises.now.book.clauses [] premises.now.trail.assignments }
    ensures { analyzer.new ≡ analyzer.old }
{
    match explain(rt, analyzer, premises, place)? {
        Some(hints) => Ok(hints.as_slice() == wanted),
        None => Ok(false),
    }
}
