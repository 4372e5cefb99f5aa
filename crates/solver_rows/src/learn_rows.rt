//! Conflicts that were resolved by hand.

ghost use Rattle.std.specs.Prelude.{◌≡◌, []};
ghost use Rattle.sat_trail.specs.Trail.{lits};
ghost use Rattle.sat_watch.specs.Book.{ScanIs};
ghost use Rattle.sat_watch.specs.Ready.{IsReady};
ghost use Rattle.sat_learn.specs.Reasons.{AreReasons};

use crate::book_clauses::{add_all, add_chain, lit};
use crate::book_steps::is_quiet;
use crate::learn_steps::{
    analyze, assume, begin, conflict_in, decide_next, explain, is_explained, premises_of,
    propagate, refute,
};
use sat_learn::{Analyzer, LearnedClause, Premises};
use sat_trail::{ClauseId, Trail};
use sat_watch::{ClauseBook, Scan};
use std::alloc::Global;
use std::process::Abort;
use std::test::Fail;

fn is_first_uip(rt: &impl Abort, learned: &LearnedClause) -> bool {
    let wanted = [lit(rt, -3), lit(rt, -1)];
    learned.lits() == wanted.as_slice()
        && learned.backjump_level() == 1
        && learned.roots() == [1, 0].as_slice()
}

fn has_hints(learned: LearnedClause, wanted: &[i64]) -> bool {
    learned.into_hints().into_vec().as_slice() == wanted
}

/// Learns from the conflict of the first test, twice.
fn learn_first_uip(
    rt: &impl Abort,
    alloc: Global,
    premises: &Premises,
    conflict: ClauseId,
) -> Result<(), Fail>
    requires vars { premises.now.trail.vars ≡ 7 }
    requires ready { IsReady premises.now.book premises.now.trail }
    requires reasons { AreReasons premises.now.book.clauses [] premises.now.trail.assignments }
    requires conflict { ScanIs premises.now.book.clauses (lits premises.now.trail.assignments) (Scan.Conflict conflict) }
{
    let mut analyzer = Analyzer::new(alloc, 7)?;
    let learned = analyze(rt, &mut analyzer, premises, conflict, 14)?;
    assert!(rt; is_first_uip(rt, &learned));
    assert!(rt; has_hints(learned, &[9, 10, 13, 12, 14]));
    let again = analyze(rt, &mut analyzer, premises, conflict, 14)?;
    assert!(rt; again.backjump_level() == 1);
    Ok(())
}

/// 6 and 7 at level 0, the decision 1, the decision 2; then 3, from which with 1 and 7 come 4 and 5, and -4 -5 -6 is false.
#[test]
fn first_uip_after_the_decision_is_found(rt: HostRuntime) -> Result<(), Fail> {
    const TRIPLES: &[(i32, i32, i32)] = &[(-3, 4, -7), (-3, -1, 5), (-4, -5, -6)];
    let mut book = ClauseBook::new(rt.alloc(), 7)?;
    let mut trail = Trail::new(rt.alloc(), 7)?;
    add_all(&rt, rt.alloc(), &mut book, &trail, &[(-2, 3)], TRIPLES)?;
    begin(&book, &trail);
    assume(&rt, &book, &mut trail, 6, 9);
    assume(&rt, &book, &mut trail, 7, 10);
    decide_next(&rt, &mut book, &mut trail, 1);
    decide_next(&rt, &mut book, &mut trail, 2);
    let conflict = conflict_in(&rt, &mut book, &mut trail);
    assert!(rt; conflict == ClauseId::Book(3));
    let premises = premises_of(rt.alloc(), trail, book, &[11, 12, 13, 14])?;
    learn_first_uip(&rt, rt.alloc(), &premises, conflict)
}

/// Refutes by the conflict of the next test.
fn refute_root(
    rt: &impl Abort,
    alloc: Global,
    premises: &Premises,
    conflict: ClauseId,
) -> Result<(), Fail>
    requires vars { premises.now.trail.vars ≡ 2 }
    requires reasons { AreReasons premises.now.book.clauses [] premises.now.trail.assignments }
    requires conflict { ScanIs premises.now.book.clauses (lits premises.now.trail.assignments) (Scan.Conflict conflict) }
{
    let mut analyzer = Analyzer::new(alloc, 2)?;
    let hints = refute(rt, &mut analyzer, premises, conflict, 2)?;
    assert!(rt; hints.into_vec().as_slice() == [5, 1, 2].as_slice());
    Ok(())
}

/// -1 at level 0 for a unit clause, from which 2 comes, and 1 -2 is false.
#[test]
fn conflict_at_the_root_is_refuted(rt: HostRuntime) -> Result<(), Fail> {
    let mut book = ClauseBook::new(rt.alloc(), 2)?;
    let mut trail = Trail::new(rt.alloc(), 2)?;
    add_all(&rt, rt.alloc(), &mut book, &trail, &[(1, 2), (1, -2)], &[])?;
    begin(&book, &trail);
    assume(&rt, &book, &mut trail, -1, 5);
    let conflict = conflict_in(&rt, &mut book, &mut trail);
    let premises = premises_of(rt.alloc(), trail, book, &[1, 2])?;
    refute_root(&rt, rt.alloc(), &premises, conflict)
}

/// Explains the last assignment of the next test and the first.
fn explains_root(rt: &impl Abort, alloc: Global, premises: &Premises) -> Result<bool, Fail>
    requires vars { premises.now.trail.vars ≡ 4 }
    requires reasons { AreReasons premises.now.book.clauses [] premises.now.trail.assignments }
{
    let mut analyzer = Analyzer::new(alloc, 4)?;
    let last = is_explained(rt, &mut analyzer, premises, 3, &[9, 11, 12, 13])?;
    let unit = is_explained(rt, &mut analyzer, premises, 0, &[9])?;
    Ok(last && unit)
}

/// 1 at level 0 for a unit clause, from which 2 comes, then 3, and from 1 and 3 comes 4.
#[test]
fn chain_at_the_root_is_explained(rt: HostRuntime) -> Result<(), Fail> {
    let mut book = ClauseBook::new(rt.alloc(), 4)?;
    let mut trail = Trail::new(rt.alloc(), 4)?;
    add_all(
        &rt,
        rt.alloc(),
        &mut book,
        &trail,
        &[(-1, 2), (-2, 3)],
        &[(-3, -1, 4)],
    )?;
    begin(&book, &trail);
    assume(&rt, &book, &mut trail, 1, 9);
    let scan = propagate(&mut book, &mut trail);
    assert!(rt; is_quiet(scan));
    let premises = premises_of(rt.alloc(), trail, book, &[11, 12, 13])?;
    assert!(rt; explains_root(&rt, rt.alloc(), &premises)?);
    Ok(())
}

/// Of a chain of 501 clauses the last variable isn't explained, and the one before is.
fn explain_deep(rt: &impl Abort, alloc: Global, premises: &Premises) -> Result<bool, Fail>
    requires vars { premises.now.trail.vars ≡ 502 }
    requires reasons { AreReasons premises.now.book.clauses [] premises.now.trail.assignments }
{
    let mut analyzer = Analyzer::new(alloc, 502)?;
    let last = explain(rt, &mut analyzer, premises, 501)?;
    let Some(before) = explain(rt, &mut analyzer, premises, 500)? else {
        return Ok(false);
    };
    Ok(last.is_none() && before.len() == 501)
}

/// 1 at level 0 for a unit clause, and each variable from the one before, so that the last rests on 501 clauses.
#[test]
fn chain_that_is_too_deep_is_left(rt: HostRuntime) -> Result<(), Fail> {
    let mut book = ClauseBook::new(rt.alloc(), 502)?;
    let mut trail = Trail::new(rt.alloc(), 502)?;
    add_chain(&rt, rt.alloc(), &mut book, &trail, 502)?;
    begin(&book, &trail);
    assume(&rt, &book, &mut trail, 1, 9);
    let scan = propagate(&mut book, &mut trail);
    assert!(rt; is_quiet(scan));
    let premises = premises_of(rt.alloc(), trail, book, &[7; 501])?;
    assert!(rt; explain_deep(&rt, rt.alloc(), &premises)?);
    Ok(())
}
