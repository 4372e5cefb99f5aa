//! A core, step by step.

use Event::{Join, Look, Mark, Number, Split};
use Kind::{Reached, Unreachable};
use Reply::{Joined, Marked, Numbered, Seen};
use Source::{Hop, Proved, Sweep, Zero};
use Verdict::{Pending, Settled};
use aig_model::Kind;
use board_core::{CoreState, Event, Reply, Source, Verdict};
use ketch_base::OutOfMemory;
use std::alloc::Global;
use std::test::Fail;

/// An event, and what it is answered; None where it may not happen.
type Row = (Event, Option<Reply>);

/// Two callers and four goals.
const TWO_CALLERS: &[Row] = &[
    (
        Number {
            caller: 1,
            goal: 2,
            kind: Reached,
            source: Zero,
        },
        Some(Numbered(0)),
    ),
    (Look { caller: 0, goal: 2 }, Some(Seen(Pending))),
    (Mark { caller: 1 }, Some(Marked)),
    (Look { caller: 0, goal: 2 }, Some(Seen(Settled(Reached)))),
    (Mark { caller: 1 }, None),
    (Mark { caller: 0 }, None),
    (Look { caller: 2, goal: 2 }, None),
    (Look { caller: 1, goal: 4 }, None),
    (Look { caller: 1, goal: 3 }, Some(Seen(Pending))),
];

/// The first mark of a goal stays. A caller marks before it posts again, and posts once for a goal.
const TWO_POSTS: &[Row] = &[
    (
        Number {
            caller: 0,
            goal: 3,
            kind: Reached,
            source: Sweep,
        },
        Some(Numbered(0)),
    ),
    (
        Number {
            caller: 0,
            goal: 2,
            kind: Reached,
            source: Sweep,
        },
        None,
    ),
    (
        Number {
            caller: 1,
            goal: 3,
            kind: Unreachable,
            source: Proved,
        },
        Some(Numbered(1)),
    ),
    (Mark { caller: 1 }, Some(Marked)),
    (Mark { caller: 0 }, Some(Marked)),
    (
        Look { caller: 0, goal: 3 },
        Some(Seen(Settled(Unreachable))),
    ),
    (
        Number {
            caller: 0,
            goal: 3,
            kind: Reached,
            source: Hop(1),
        },
        None,
    ),
    (
        Number {
            caller: 0,
            goal: 4,
            kind: Reached,
            source: Hop(1),
        },
        None,
    ),
    (
        Number {
            caller: 0,
            goal: 0,
            kind: Reached,
            source: Hop(1),
        },
        Some(Numbered(2)),
    ),
];

/// Caller 0 makes callers up to eight, and takes them in; what was posted for a goal by one of them, it may not post again.
const SPLITS: &[Row] = &[
    (Split { caller: 1 }, None),
    (Split { caller: 0 }, Some(Reply::Split(2))),
    (
        Number {
            caller: 2,
            goal: 1,
            kind: Reached,
            source: Zero,
        },
        Some(Numbered(0)),
    ),
    (Join { from: 2, into: 0 }, None),
    (Mark { caller: 2 }, Some(Marked)),
    (Join { from: 2, into: 2 }, None),
    (Join { from: 0, into: 2 }, None),
    (Join { from: 2, into: 3 }, None),
    (Join { from: 2, into: 0 }, Some(Joined)),
    (Join { from: 2, into: 0 }, None),
    (Look { caller: 2, goal: 1 }, None),
    (
        Number {
            caller: 0,
            goal: 1,
            kind: Reached,
            source: Zero,
        },
        Some(Numbered(1)),
    ),
    (Split { caller: 0 }, Some(Reply::Split(3))),
    (Split { caller: 0 }, Some(Reply::Split(4))),
    (Split { caller: 0 }, Some(Reply::Split(5))),
    (Split { caller: 0 }, Some(Reply::Split(6))),
    (Split { caller: 0 }, Some(Reply::Split(7))),
    (Split { caller: 0 }, None),
    (Join { from: 7, into: 1 }, Some(Joined)),
    (Split { caller: 0 }, None),
];

fn answer(core: &mut CoreState, event: Event) -> Result<Option<Reply>, OutOfMemory> {
    if !core.can(&event) {
        return Ok(None);
    }
    let reply = core.step(event)?;
    Ok(Some(reply))
}

fn are_answered(core: &mut CoreState, rows: &[Row]) -> Result<bool, OutOfMemory> {
    for (event, wanted) in rows {
        if answer(core, *event)? != *wanted {
            return Ok(false);
        }
    }
    Ok(true)
}

/// Whether a core of two callers and four goals answers as the rows say.
fn has_rows(alloc: Global, rows: &[Row]) -> Result<bool, OutOfMemory> {
    let mut core = CoreState::new(alloc, 2, 4)?;
    let held = are_answered(&mut core, rows)?;
    Ok(held)
}

#[test]
fn two_callers(rt: HostRuntime) -> Result<(), Fail> {
    let held = has_rows(rt.alloc(), TWO_CALLERS)?;
    assert!(rt; held);
    Ok(())
}

#[test]
fn two_posts(rt: HostRuntime) -> Result<(), Fail> {
    let held = has_rows(rt.alloc(), TWO_POSTS)?;
    assert!(rt; held);
    Ok(())
}

#[test]
fn splits_and_joins(rt: HostRuntime) -> Result<(), Fail> {
    let held = has_rows(rt.alloc(), SPLITS)?;
    assert!(rt; held);
    Ok(())
}
