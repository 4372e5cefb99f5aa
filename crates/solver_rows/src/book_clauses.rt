//! Clauses for a book whose trail is new.

ghost use Rattle.std.specs.Prelude.{◌≡◌, ◌≤◌, [], ◌∷◌, ◌++◌, IfOk, OnOk};
ghost use Rattle.sat_watch.specs.Book.{IsBookClause};

use cnf_base::{Clause, CnfLit};
use sat_trail::Trail;
use sat_watch::ClauseBook;
use std::alloc::Global;
use std::process::Abort;
use std::test::Fail;

pub fn lit(rt: &impl Abort, value: i32) -> CnfLit {
    assert!(rt; value != 0);
    CnfLit::new(value)
}

pub fn pair(
    rt: &impl Abort,
    alloc: Global,
    vars: u32,
    first: i32,
    second: i32,
) -> Result<Clause, Fail>
    ensures { IfOk result (IsBookClause vars) }
{
    let (a, b) = (lit(rt, first), lit(rt, second));
    assert!(rt; a.var() <= vars);
    assert!(rt; b.var() <= vars);
    assert!(rt; a.var() != b.var());
    let clause = Clause::from_slice(alloc, &[a, b])?;
    Ok(clause)
}

pub fn triple(
    rt: &impl Abort,
    alloc: Global,
    vars: u32,
    first: i32,
    second: i32,
    third: i32,
) -> Result<Clause, Fail>
    ensures { IfOk result (IsBookClause vars) }
{
    let (a, b, c) = (lit(rt, first), lit(rt, second), lit(rt, third));
    assert!(rt; a.var() <= vars);
    assert!(rt; b.var() <= vars);
    assert!(rt; c.var() <= vars);
    assert!(rt; a.var() != b.var());
    assert!(rt; a.var() != c.var());
    assert!(rt; b.var() != c.var());
    let clause = Clause::from_slice(alloc, &[a, b, c])?;
    Ok(clause)
}

/// Adds a clause while the trail is new.
pub fn add_clause(book: &mut ClauseBook, trail: &Trail, clause: &Clause) -> Result<(), Fail>
    requires new { trail.now ≡ record { vars = book.old.vars; assignments = []; level = 0; low = 0 } }
    requires clause { IsBookClause book.old.vars clause.now }
    ensures new { OnOk result (trail.now ≡ record { vars = book.new.vars; assignments = []; level = 0; low = 0 }) }
    ensures clauses { OnOk result (book.new.clauses ≡ book.old.clauses ++ clause.now ∷ []) }
{
    book.add(clause, trail)?;
    Ok(())
}

/// Adds clauses by which each variable comes from the one before, while the trail is new.
pub fn add_chain(
    rt: &impl Abort,
    alloc: Global,
    book: &mut ClauseBook,
    trail: &Trail,
    vars: u32,
) -> Result<(), Fail>
    requires few { vars ≤ 1000 }
    requires vars { book.old.vars ≡ vars }
    requires new { trail.now ≡ record { vars = book.old.vars; assignments = []; level = 0; low = 0 } }
    ensures { OnOk result (trail.now ≡ record { vars = book.new.vars; assignments = []; level = 0; low = 0 }) }
{
    for var in 1..vars {
        let clause = pair(rt, alloc, vars, -(var as i32), var as i32 + 1)?;
        add_clause(book, trail, &clause)?;
    }
    Ok(())
}

/// Adds clauses of two literals and then clauses of three, while the trail is new.
pub fn add_all(
    rt: &impl Abort,
    alloc: Global,
    book: &mut ClauseBook,
    trail: &Trail,
    pairs: &[(i32, i32)],
    triples: &[(i32, i32, i32)],
) -> Result<(), Fail>
    requires { trail.now ≡ record { vars = book.old.vars; assignments = []; level = 0; low = 0 } }
    ensures { OnOk result (trail.now ≡ record { vars = book.new.vars; assignments = []; level = 0; low = 0 }) }
{
    'twos: for (first, second) in pairs {
        let clause = pair(rt, alloc, book.vars(), *first, *second)?;
        add_clause(book, trail, &clause)?;
    }
    'threes: for (first, second, third) in triples {
        let clause = triple(rt, alloc, book.vars(), *first, *second, *third)?;
        add_clause(book, trail, &clause)?;
    }
    Ok(())
}
