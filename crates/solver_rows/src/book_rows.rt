//! A book and its trail, step by step.

ghost use Rattle.std.specs.Prelude.{◌≡◌, [], ◌∷◌};
ghost use Rattle.sat_watch.specs.Ready.{IsReady, IsSettled};

use crate::book_clauses::{add_all, add_clause, triple};
use crate::book_steps::{
    begin, decide, decide_again, go_back, is_seen, propagate, propagate_quiet,
};
use cnf_base::Clause;
use sat_trail::{ClauseId, Trail, Value};
use sat_watch::{ClauseBook, Scan};
use std::process::Abort;
use std::test::Fail;

/// 1 2 3 forces 3 after the decisions -1 and -2, and nothing after -3.
fn forces_last(rt: &impl Abort, book: &mut ClauseBook, trail: &mut Trail) -> bool
    requires { IsSettled book.old trail.old }
{
    decide(rt, book, trail, -1);
    propagate_quiet(rt, book, trail);
    decide(rt, book, trail, -2);
    propagate_quiet(rt, book, trail);
    let forced = is_seen(
        rt,
        trail,
        3,
        (Value::True, Some(2), Some(ClauseId::Book(0))),
    );
    go_back(rt, book, trail, 0);
    decide(rt, book, trail, -3);
    propagate_quiet(rt, book, trail);
    forced && trail.len() == 1
}

#[test]
fn last_literal_is_forced(rt: HostRuntime) -> Result<(), Fail> {
    let mut book = ClauseBook::new(rt.alloc(), 3)?;
    let mut trail = Trail::new(rt.alloc(), 3)?;
    add_all(&rt, rt.alloc(), &mut book, &trail, &[], &[(1, 2, 3)])?;
    begin(&book, &trail);
    assert!(rt; forces_last(&rt, &mut book, &mut trail));
    Ok(())
}

/// -1 makes 2 true, and with it 3, so that -3 1 is false; a second call finds the same. 1 makes nothing true.
fn names_conflict(rt: &impl Abort, book: &mut ClauseBook, trail: &mut Trail) -> bool
    requires { IsSettled book.old trail.old }
{
    decide(rt, book, trail, -1);
    let scan = propagate(book, trail);
    let again = propagate(book, trail);
    go_back(rt, book, trail, 0);
    decide(rt, book, trail, 1);
    propagate_quiet(rt, book, trail);
    scan == Scan::Conflict(ClauseId::Book(2)) && again == scan && trail.len() == 1
}

#[test]
fn false_clause_is_named(rt: HostRuntime) -> Result<(), Fail> {
    const PAIRS: &[(i32, i32)] = &[(1, 2), (-2, 3), (-3, 1)];
    let mut book = ClauseBook::new(rt.alloc(), 3)?;
    let mut trail = Trail::new(rt.alloc(), 3)?;
    add_all(&rt, rt.alloc(), &mut book, &trail, PAIRS, &[])?;
    begin(&book, &trail);
    assert!(rt; names_conflict(&rt, &mut book, &mut trail));
    assert!(rt; book.len() == 3);
    Ok(())
}

/// Two decisions in a row, of which the first goes: then -3 forces 2.
fn forces_second(rt: &impl Abort, book: &mut ClauseBook, trail: &mut Trail, clause: &Clause) -> bool
    requires ready { IsReady book.old trail.old }
    requires only { book.old.clauses ≡ clause.now ∷ [] }
{
    propagate_quiet(rt, book, trail);
    decide(rt, book, trail, -1);
    decide_again(rt, book, trail, clause, 2);
    propagate_quiet(rt, book, trail);
    go_back(rt, book, trail, 1);
    decide(rt, book, trail, -3);
    propagate_quiet(rt, book, trail);
    is_seen(
        rt,
        trail,
        2,
        (Value::True, Some(2), Some(ClauseId::Book(0))),
    )
}

/// After two decisions the clause watches its open literals, and not the first ones: so it's unit once they are false.
#[test]
fn watches_are_chosen_anew(rt: HostRuntime) -> Result<(), Fail> {
    let mut book = ClauseBook::new(rt.alloc(), 3)?;
    let mut trail = Trail::new(rt.alloc(), 3)?;
    let clause = triple(&rt, rt.alloc(), 3, 1, 2, 3)?;
    add_clause(&mut book, &trail, &clause)?;
    begin(&book, &trail);
    assert!(rt; forces_second(&rt, &mut book, &mut trail, &clause));
    Ok(())
}
