//! What the solver answers to the families.

use crate::families::{COUNTER, ladder, parities, pigeonholes, pigeonholes_beside_counter};
use crate::judging::{Verdict, outcome_of, verdict_of};
use cnf_base::Formula;
use std::alloc::Global;
use std::process::Abort;
use std::test::Fail;

const LEMMAS: u64 = 1_000_000;

/// One pigeon more than there are holes is one too many.
#[test]
fn pigeons_in_holes(rt: HostRuntime) -> Result<(), Fail> {
    for holes in 2..6u8 {
        let crowded = pigeonholes(&rt, rt.alloc(), holes + 1, holes)?;
        let answer = verdict_of(&rt, rt.alloc(), &crowded, LEMMAS)?;
        assert_eq!(rt; answer, Verdict::Unsat, "{holes} holes");
        let full = pigeonholes(&rt, rt.alloc(), holes, holes)?;
        let answer = verdict_of(&rt, rt.alloc(), &full, LEMMAS)?;
        assert_eq!(rt; answer, Verdict::Sat, "{holes} holes");
    }
    Ok(())
}

/// A budget that is too small is spent to the last lemma.
fn spend_small_budgets(rt: &impl Abort, alloc: Global, formula: &Formula) -> Result<(), Fail> {
    for lemmas in 1..4u64 {
        let outcome = outcome_of(rt, alloc, formula, lemmas)?;
        assert_eq!(rt; outcome.verdict, Verdict::Spent);
        assert_eq!(rt; outcome.steps as u64, lemmas);
    }
    Ok(())
}

#[test]
fn small_budgets(rt: HostRuntime) -> Result<(), Fail> {
    let crowded = pigeonholes(&rt, rt.alloc(), 6, 5)?;
    spend_small_budgets(&rt, rt.alloc(), &crowded)
}

/// Lemmas rest on bits of the counter that are lemmas themselves, since their derivations are long. No conflict teaches
/// one, since they stand at level 0 from the start.
#[test]
fn pigeons_beside_a_counter(rt: HostRuntime) -> Result<(), Fail> {
    let crowded = pigeonholes_beside_counter(&rt, rt.alloc(), 5, 4)?;
    let outcome = outcome_of(&rt, rt.alloc(), &crowded, LEMMAS)?;
    assert_eq!(rt; outcome.verdict, Verdict::Unsat);
    assert!(rt; outcome.greatest_named >= u32::from(COUNTER));
    spend_small_budgets(&rt, rt.alloc(), &crowded)
}

#[test]
fn sums_of_parities(rt: HostRuntime) -> Result<(), Fail> {
    for terms in 0..8u8 {
        let different = parities(&rt, rt.alloc(), terms, true)?;
        let answer = verdict_of(&rt, rt.alloc(), &different, LEMMAS)?;
        assert_eq!(rt; answer, Verdict::Unsat, "{terms} terms");
        let same = parities(&rt, rt.alloc(), terms, false)?;
        let answer = verdict_of(&rt, rt.alloc(), &same, LEMMAS)?;
        assert_eq!(rt; answer, Verdict::Sat, "{terms} terms");
    }
    Ok(())
}

#[test]
fn ladders(rt: HostRuntime) -> Result<(), Fail> {
    for terms in 3..25u8 {
        let twice = ladder(&rt, rt.alloc(), terms, &[1, u16::from(terms)])?;
        let answer = verdict_of(&rt, rt.alloc(), &twice, 1)?;
        assert_eq!(rt; answer, Verdict::Unsat, "{terms} terms");
        let once = ladder(&rt, rt.alloc(), terms, &[3])?;
        let outcome = outcome_of(&rt, rt.alloc(), &once, LEMMAS)?;
        assert_eq!(rt; outcome.verdict, Verdict::Sat, "{terms} terms");
        let chosen = outcome.values & ((1u64 << (terms % 64)) - 1);
        assert_eq!(rt; chosen, 4, "{terms} terms");
    }
    Ok(())
}
