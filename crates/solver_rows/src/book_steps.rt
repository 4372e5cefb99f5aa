//! A book and its trail, step by step.

ghost use Rattle.std.specs.Prelude.{◌≡◌, ◌↔◌, [], ◌∷◌, IsTrue};
ghost use Rattle.sat_watch.specs.Ready.{IsReady, IsSettled};

use crate::book_clauses::lit;
use cnf_base::Clause;
use sat_trail::{ClauseId, Trail, Value};
use sat_watch::{ClauseBook, Scan};
use std::process::Abort;

/// A new trail is settled.
pub fn begin(book: &ClauseBook, trail: &Trail)
    requires { trail.now ≡ record { vars = book.now.vars; assignments = []; level = 0; low = 0 } }
    ensures { IsSettled book.now trail.now }
{
    let _ = (book.vars(), trail.vars());
}

pub fn decide(rt: &impl Abort, book: &ClauseBook, trail: &mut Trail, value: i32)
    requires { IsSettled book.now trail.old }
    ensures { IsReady book.now trail.new }
{
    let decision = lit(rt, value);
    assert!(rt; decision.var() <= trail.vars());
    let unset = trail.value(decision) == Value::Unset;
    assert!(rt; unset);
    trail.decide(decision);
    let _ = book;
}

/// A decision right after another one: the only clause has two open literals.
pub fn decide_again(
    rt: &impl Abort,
    book: &ClauseBook,
    trail: &mut Trail,
    clause: &Clause,
    value: i32,
)
    requires ready { IsReady book.now trail.old }
    requires only { book.now.clauses ≡ clause.now ∷ [] }
    ensures { IsReady book.now trail.new }
{
    assert!(rt; clause.len() == 3);
    let (second, third) = (*clause.get(1), *clause.get(2));
    assert!(rt; second.var() <= trail.vars());
    assert!(rt; third.var() <= trail.vars());
    assert!(rt; second.var() != third.var());
    let second_unset = trail.value(second) == Value::Unset;
    assert!(rt; second_unset);
    let third_unset = trail.value(third) == Value::Unset;
    assert!(rt; third_unset);
    decide(rt, book, trail, value);
}

pub fn propagate(book: &mut ClauseBook, trail: &mut Trail) -> Scan
    requires { IsReady book.old trail.old }
    ensures clauses { book.new.clauses ≡ book.old.clauses }
    ensures ready { IsReady book.new trail.new }
    ensures settled { result ≡ Scan.Quiet → IsSettled book.new trail.new }
{
    let scan = book.propagate(trail);
    let _ = trail.vars();
    scan
}

pub fn go_back(rt: &impl Abort, book: &ClauseBook, trail: &mut Trail, level: u32)
    requires { IsReady book.now trail.old }
    ensures { IsSettled book.now trail.new }
{
    let _ = trail.vars();
    assert!(rt; level < trail.level());
    trail.back_to(level);
    let _ = book;
}

/// Propagates, by which no clause is to be false.
pub fn propagate_quiet(rt: &impl Abort, book: &mut ClauseBook, trail: &mut Trail)
    requires { IsReady book.old trail.old }
    ensures clauses { book.new.clauses ≡ book.old.clauses }
    ensures ready { IsReady book.new trail.new }
    ensures settled { IsSettled book.new trail.new }
{
    let scan = propagate(book, trail);
    assert!(rt; is_quiet(scan));
}

pub fn is_quiet(scan: Scan) -> bool
    ensures { IsTrue result ↔ (scan ≡ Scan.Quiet) }
{
    match scan {
        Scan::Quiet => true,
        Scan::Conflict(_) => false,
    }
}

/// Whether a literal's value, and the level and the reason of its variable, are these.
pub fn is_seen(
    rt: &impl Abort,
    trail: &Trail,
    value: i32,
    wanted: (Value, Option<u32>, Option<ClauseId>),
) -> bool {
    let of = lit(rt, value);
    let var = of.var();
    assert!(rt; var <= trail.vars());
    (trail.value(of), trail.level_of(var), trail.reason_of(var)) == wanted
}
