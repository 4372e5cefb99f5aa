//! Families of formulas whose answers are known from their meaning.

use crate::formulas::{add, begin, no, yes};
use cnf_base::Formula;
use std::alloc::{AllocError, Global};
use std::process::Abort;
use std::test::Fail;

/// At least one of the variables is true.
fn add_some(
    rt: &impl Abort,
    alloc: Global,
    formula: &mut Formula,
    vars: &[u16],
) -> Result<(), Fail> {
    let mut lits = Vec::new(alloc);
    for var in vars {
        lits.push(yes(*var))?;
    }
    add(rt, alloc, formula, &lits)
}

/// Not both this variable and one of those.
fn add_none_beside(
    rt: &impl Abort,
    alloc: Global,
    formula: &mut Formula,
    var: u16,
    others: &[u16],
) -> Result<(), Fail> {
    for other in others {
        add(rt, alloc, formula, &[no(var), no(*other)])?;
    }
    Ok(())
}

/// At most one of the variables is true.
fn add_most_one(
    rt: &impl Abort,
    alloc: Global,
    formula: &mut Formula,
    vars: &[u16],
) -> Result<(), Fail> {
    for (place, var) in vars.iter().enumerate() {
        add_none_beside(rt, alloc, formula, *var, &vars[..place])?;
    }
    Ok(())
}

/// That a pigeon sits in a hole, one of five.
fn seat(pigeon: u8, hole: u8) -> u16 {
    5 * u16::from(pigeon) + u16::from(hole) + 1
}

fn seats_of_pigeon(alloc: Global, pigeon: u8, holes: u8) -> Result<Vec<u16>, AllocError> {
    (0..holes).map(|hole| seat(pigeon, hole)).collect(alloc)
}

fn seats_in_hole(alloc: Global, pigeons: u8, hole: u8) -> Result<Vec<u16>, AllocError> {
    (0..pigeons).map(|pigeon| seat(pigeon, hole)).collect(alloc)
}

/// No two of the pigeons sit in the same hole.
fn add_apart(
    rt: &impl Abort,
    alloc: Global,
    formula: &mut Formula,
    pigeons: u8,
    holes: u8,
) -> Result<(), Fail> {
    for hole in 0..holes {
        let seats = seats_in_hole(alloc, pigeons, hole)?;
        add_most_one(rt, alloc, formula, &seats)?;
    }
    Ok(())
}

/// Each pigeon sits in a hole, of at most five, and no two in the same.
pub fn pigeonholes(
    rt: &impl Abort,
    alloc: Global,
    pigeons: u8,
    holes: u8,
) -> Result<Formula, Fail> {
    let mut formula = begin(rt, alloc, 30);
    for pigeon in 0..pigeons {
        let seats = seats_of_pigeon(alloc, pigeon, holes)?;
        add_some(rt, alloc, &mut formula, &seats)?;
    }
    add_apart(rt, alloc, &mut formula, pigeons, holes)?;
    Ok(formula)
}

/// An even number of the three variables is true.
fn add_even(
    rt: &impl Abort,
    alloc: Global,
    formula: &mut Formula,
    a: u16,
    b: u16,
    c: u16,
) -> Result<(), Fail> {
    add(rt, alloc, formula, &[no(a), no(b), no(c)])?;
    add(rt, alloc, formula, &[no(a), yes(b), yes(c)])?;
    add(rt, alloc, formula, &[yes(a), no(b), yes(c)])?;
    add(rt, alloc, formula, &[yes(a), yes(b), no(c)])
}

/// The variables 2 to `terms` + 1.
fn terms_forward(alloc: Global, terms: u8) -> Result<Vec<u16>, AllocError> {
    (0..terms).map(|place| u16::from(place) + 2).collect(alloc)
}

fn terms_backward(alloc: Global, terms: u8) -> Result<Vec<u16>, AllocError> {
    (0..terms)
        .rev()
        .map(|place| u16::from(place) + 2)
        .collect(alloc)
}

/// Sums modulo 2 of the first terms, from variable 1 on, which is false; the next sums are `sums` and those that follow
/// it. The variable of the last sum.
fn add_sums(
    rt: &impl Abort,
    alloc: Global,
    formula: &mut Formula,
    terms: &[u16],
    sums: u16,
) -> Result<u16, Fail> {
    let mut last = 1;
    let mut next = sums;
    for term in terms {
        add_even(rt, alloc, formula, last, *term, next)?;
        last = next;
        next = next.saturating_add(1);
    }
    Ok(last)
}

/// The sum of some variables modulo 2, forward and backward, which are to be the same or else to differ.
pub fn parities(rt: &impl Abort, alloc: Global, terms: u8, differ: bool) -> Result<Formula, Fail> {
    let number = u16::from(terms);
    let mut formula = begin(rt, alloc, 3 * u32::from(terms) + 1);
    add(rt, alloc, &mut formula, &[no(1)])?;
    let terms_there = terms_forward(alloc, terms)?;
    let forward = add_sums(rt, alloc, &mut formula, &terms_there, number + 2)?;
    let terms_back = terms_backward(alloc, terms)?;
    let backward = add_sums(rt, alloc, &mut formula, &terms_back, 2 * number + 2)?;
    if differ {
        add(rt, alloc, &mut formula, &[yes(forward), yes(backward)])?;
        add(rt, alloc, &mut formula, &[no(forward), no(backward)])?;
    } else {
        add_even(rt, alloc, &mut formula, forward, backward, 1)?;
    }
    Ok(formula)
}

/// At most one of the variables 1 to `terms` is true: variable `terms` + v says that one of the first v is.
fn add_ladder(
    rt: &impl Abort,
    alloc: Global,
    formula: &mut Formula,
    terms: u8,
) -> Result<(), Fail> {
    for term in 1..terms {
        let (var, next) = (u16::from(term), u16::from(term) + 1);
        let rung = u16::from(terms) + var;
        add(rt, alloc, formula, &[no(var), yes(rung)])?;
        add(rt, alloc, formula, &[no(rung), yes(rung + 1)])?;
        add(rt, alloc, formula, &[no(next), no(rung)])?;
    }
    Ok(())
}

/// At most one of the variables 1 to `terms` is true, and these are.
pub fn ladder(rt: &impl Abort, alloc: Global, terms: u8, forced: &[u16]) -> Result<Formula, Fail> {
    let mut formula = begin(rt, alloc, 2 * u32::from(terms));
    add_ladder(rt, alloc, &mut formula, terms)?;
    for var in forced {
        add(rt, alloc, &mut formula, &[yes(*var)])?;
    }
    Ok(formula)
}

/// The first variable of a counter beside pigeonholes, and the last one.
pub const COUNTER: u16 = 31;

const COUNTER_END: u16 = 64;

/// A counter of two bits that runs from 0: a variable is its low bit and the next one its high bit, for each step anew.
/// It is 0 again at the end.
fn add_counter(rt: &impl Abort, alloc: Global, formula: &mut Formula) -> Result<(), Fail> {
    add(rt, alloc, formula, &[no(COUNTER)])?;
    add(rt, alloc, formula, &[no(COUNTER + 1)])?;
    for step in 0..16u16 {
        let low = COUNTER + 2 * step;
        add(rt, alloc, formula, &[yes(low), yes(low + 2)])?;
        add(rt, alloc, formula, &[no(low), no(low + 2)])?;
        add_even(rt, alloc, formula, low, low + 1, low + 3)?;
    }
    Ok(())
}

/// Each pigeon sits in a hole, unless the high bit of a counter is true in the end, and no two in the same.
pub fn pigeonholes_beside_counter(
    rt: &impl Abort,
    alloc: Global,
    pigeons: u8,
    holes: u8,
) -> Result<Formula, Fail> {
    let mut formula = begin(rt, alloc, u32::from(COUNTER_END));
    add_counter(rt, alloc, &mut formula)?;
    for pigeon in 0..pigeons {
        let mut vars = seats_of_pigeon(alloc, pigeon, holes)?;
        vars.push(COUNTER_END)?;
        add_some(rt, alloc, &mut formula, &vars)?;
    }
    add_apart(rt, alloc, &mut formula, pigeons, holes)?;
    Ok(formula)
}
