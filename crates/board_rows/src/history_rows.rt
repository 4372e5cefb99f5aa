//! Histories, with the verdicts that they give or their first fault.

use HistoryKind::{Caller, Goal, Low, Number, Source as BadSource, Twice};
use Kind::{Reached, Unreachable};
use Source::{Again, Hop, Proved, Sweep, Walk, Zero};
use Verdict::{Pending, Settled};
use aig_model::Kind;
use board_core::{Entries, Entry, HistoryFault, HistoryKind, Source, Verdict, replay_history};
use ketch_base::OutOfMemory;
use sim_walk::Options;
use std::alloc::Global;
use std::test::Fail;

/// Two batches and three rounds.
const OPTIONS: Options = Options {
    depth: 0,
    batches: 2,
    length: 1000,
    stall: 100,
    hop: 4,
    seed: 1,
    lemmas: 20000,
    strength: 0,
    rounds: 3,
    proofs: false,
};

/// Number, caller, goal, kind, source and low.
type Post = (u64, u32, u32, Kind, Source, u64);

/// Posts for four goals, and the verdicts after them.
type LegalRow = (&'static [Post], [Verdict; 4]);

const LEGAL_ROWS: &[LegalRow] = &[
    (&[], [Pending, Pending, Pending, Pending]),
    (
        &[(0, 0, 1, Reached, Zero, 0), (1, 0, 3, Reached, Walk(1), 1)],
        [Pending, Settled(Reached), Pending, Settled(Reached)],
    ),
    (
        &[
            (0, 7, 3, Unreachable, Proved, 0),
            (1, 2, 3, Unreachable, Proved, 0),
            (2, 7, 0, Reached, Again(5), 2),
            (3, 2, 0, Reached, Hop(0), 0),
            (4, 2, 2, Reached, Sweep, 4),
        ],
        [
            Settled(Reached),
            Pending,
            Settled(Reached),
            Settled(Unreachable),
        ],
    ),
];

/// Posts for four goals, and the place and the kind of their first fault.
type FaultRow = (&'static [Post], u32, HistoryKind);

const FAULT_ROWS: &[FaultRow] = &[
    (&[(1, 0, 0, Reached, Zero, 0)], 0, Number),
    (
        &[(0, 0, 0, Reached, Zero, 0), (0, 1, 0, Reached, Zero, 0)],
        1,
        Number,
    ),
    (&[(0, 8, 4, Reached, Zero, 0)], 0, Caller),
    (&[(0, 7, 4, Reached, Zero, 1)], 0, Goal),
    (&[(0, 0, 0, Reached, Walk(2), 1)], 0, Low),
    (&[(0, 0, 0, Reached, Walk(2), 0)], 0, BadSource),
    (&[(0, 0, 0, Reached, Hop(2), 0)], 0, BadSource),
    (&[(0, 0, 0, Reached, Again(6), 0)], 0, BadSource),
    (&[(0, 0, 0, Reached, Proved, 0)], 0, BadSource),
    (&[(0, 0, 0, Unreachable, Sweep, 0)], 0, BadSource),
    (
        &[
            (0, 3, 2, Reached, Zero, 0),
            (1, 3, 1, Reached, Zero, 1),
            (2, 3, 2, Unreachable, Proved, 2),
        ],
        2,
        Twice,
    ),
    (
        &[
            (0, 3, 2, Reached, Zero, 0),
            (1, 4, 2, Unreachable, Proved, 0),
            (5, 8, 2, Reached, Zero, 0),
        ],
        1,
        HistoryKind::Kind,
    ),
];

fn entry_of(post: &Post) -> Entry {
    let (number, caller, goal, kind, source, low) = *post;
    Entry {
        number,
        caller,
        goal,
        kind,
        source,
        low,
    }
}

fn entries_of(alloc: Global, posts: &[Post]) -> Result<Entries, OutOfMemory> {
    let mut entries = Entries::new(alloc);
    for post in posts {
        entries.push(entry_of(post))?;
    }
    Ok(entries)
}

/// Whether the entries, which are few, give these verdicts for as many goals.
fn are_verdicts(alloc: Global, entries: &Entries, wanted: &[Verdict]) -> bool {
    if entries.len() >= 100 {
        return false;
    }
    match replay_history(alloc, entries, 4, &OPTIONS) {
        Ok(verdicts) => verdicts.as_slice() == wanted,
        Err(_) => false,
    }
}

fn is_legal_row(alloc: Global, row: &LegalRow) -> Result<bool, OutOfMemory> {
    let entries = entries_of(alloc, row.0)?;
    Ok(are_verdicts(alloc, &entries, &row.1))
}

#[test]
fn verdicts(rt: HostRuntime) -> Result<(), Fail> {
    for (place, row) in LEGAL_ROWS.iter().enumerate() {
        let held = is_legal_row(rt.alloc(), row)?;
        assert!(rt; held, "row {place}");
    }
    Ok(())
}

fn has_fault(alloc: Global, entries: &Entries, at: u32, kind: HistoryKind) -> bool {
    if entries.len() >= 100 {
        return false;
    }
    match replay_history(alloc, entries, 4, &OPTIONS) {
        Ok(_) => false,
        Err(fault) => fault == HistoryFault::At { at, kind },
    }
}

fn is_fault_row(alloc: Global, row: &FaultRow) -> Result<bool, OutOfMemory> {
    let entries = entries_of(alloc, row.0)?;
    Ok(has_fault(alloc, &entries, row.1, row.2))
}

#[test]
fn faults_at_their_places(rt: HostRuntime) -> Result<(), Fail> {
    for (place, row) in FAULT_ROWS.iter().enumerate() {
        let held = is_fault_row(rt.alloc(), row)?;
        assert!(rt; held, "row {place}");
    }
    Ok(())
}
