//! The lists of watches, read clause by clause.

ghost use Rattle.std.specs.Prelude.{◌<◌, ◌≤◌, length, nat_abs};
ghost use Rattle.sat_watch.specs.Ready.{IsSettled};

use crate::book_clauses::{add_all, lit};
use crate::book_steps::{begin, decide, go_back, is_seen, propagate_quiet};
use cnf_base::CnfLit;
use sat_trail::{ClauseId, Trail, Value};
use sat_watch::{ClauseBook, WatchLists};
use std::process::Abort;
use std::test::Fail;

/// Whether the list of a literal is the first clause alone.
fn is_first_alone(lists: &WatchLists<'_>, lit: CnfLit) -> bool
    requires { nat_abs lit ≤ lists.now.vars }
{
    match lists.first_watch(lit) {
        Some(id) => id == ClauseId::Book(0) && lists.next_watch(lit, id).is_none(),
        None => false,
    }
}

/// Whether the first clause watches two literals, and stands alone in the list of each.
fn stands_in_two(rt: &impl Abort, book: &ClauseBook) -> bool
    requires { 0 < length book.now.clauses }
{
    let lists = book.watch_lists();
    let (first, second) = lists.watched(ClauseId::Book(0));
    assert!(rt; first.var() <= book.vars());
    assert!(rt; second.var() <= book.vars());
    first != second && is_first_alone(&lists, first) && is_first_alone(&lists, second)
}

/// Whether the list of a literal is empty.
fn is_empty(rt: &impl Abort, book: &ClauseBook, value: i32) -> bool {
    let of = lit(rt, value);
    assert!(rt; of.var() <= book.vars());
    book.watch_lists().first_watch(of).is_none()
}

/// 1 2 3 forces 3 after the decisions -1 and -2. After -3 alone it stands in the lists of 1 and 2.
fn moves_watches(rt: &impl Abort, book: &mut ClauseBook, trail: &mut Trail) -> bool
    requires settled { IsSettled book.old trail.old }
    requires one { 0 < length book.old.clauses }
{
    decide(rt, book, trail, -1);
    propagate_quiet(rt, book, trail);
    decide(rt, book, trail, -2);
    propagate_quiet(rt, book, trail);
    let forced = is_seen(
        rt,
        trail,
        3,
        (Value::True, Some(2), Some(ClauseId::Book(0))),
    );
    let stood = stands_in_two(rt, book);
    go_back(rt, book, trail, 0);
    decide(rt, book, trail, -3);
    propagate_quiet(rt, book, trail);
    forced && stood && stands_in_two(rt, book) && is_empty(rt, book, 3)
}

#[test]
fn clause_stands_in_two_lists(rt: HostRuntime) -> Result<(), Fail> {
    let mut book = ClauseBook::new(rt.alloc(), 3)?;
    let mut trail = Trail::new(rt.alloc(), 3)?;
    add_all(&rt, rt.alloc(), &mut book, &trail, &[], &[(1, 2, 3)])?;
    assert!(rt; !book.is_empty());
    begin(&book, &trail);
    assert!(rt; moves_watches(&rt, &mut book, &mut trail));
    Ok(())
}
