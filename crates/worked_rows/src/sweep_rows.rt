//! What `cover` finds by search from reset, how far it looks, and what is left of a search that a budget ends.

use crate::setting::{Outcome, Setting};
use cover_run::Status;
use std::alloc::Global;
use std::marker::Sync;
use std::test::Fail;
use std::thread::Threads;

type Words = &'static [&'static [u8]];

/// A one walks through three latches, so the last is 1 from step 3 on.
const CHAIN: &[u8] = b"aag 3 0 3 0 0\n2 1\n4 2\n6 4\n";

/// Whether two parities of three inputs differ, which they never do.
pub(crate) const PARITIES: &[u8] =
    b"aag 18 3 0 1 15\n2\n4\n6\n36\n8 2 4\n10 3 5\n12 9 11\n14 12 6\n16 13 7\n18 15 17\n\
    20 4 6\n22 5 7\n24 21 23\n26 24 2\n28 25 3\n30 27 29\n32 18 30\n34 19 31\n36 33 35\n";

const BELOW: &[u8] =
    b"ketch 1\nsize 0 3 1\noptions 2 0 1 100 4 1 20000 2 0 0\nhistory 1\n0 0 0 r zero 0\nseeds 0\ninvs 0\ngoals 2\n\
    goal 0 reached 0\n1\nb0\n000\n\n.\ngoal 1 open depth 2 hops strength 2\nspents 0\nrefutes 0\nend 1 0 1\n";

const AT: &[u8] =
    b"ketch 1\nsize 0 3 1\noptions 3 0 1 100 4 1 20000 2 0 0\nhistory 2\n0 0 0 r zero 0\n1 0 1 r sweep 1\n\
    seeds 0\ninvs 0\ngoals 2\ngoal 0 reached 0\n1\nb0\n000\n\n.\ngoal 1 reached 1\n1\nb1\n000\n\n\n\n\n.\n\
    spents 0\nrefutes 0\nend 2 0 0\n";

/// Reports of which the search chooses nothing.
struct WholeRow {
    about: &'static str,
    words: Words,
    circuit: &'static [u8],
    signals: &'static [u8],
    status: Status,
    report: &'static [u8],
}

const WHOLE: [WholeRow; 2] = [
    WholeRow {
        about: "one step below the depth at which the goal is",
        words: &[
            b"cover",
            b"a",
            b"b",
            b"--depth",
            b"2",
            b"--length",
            b"1",
            b"--batches",
            b"0",
        ],
        circuit: CHAIN,
        signals: b"l2",
        status: Status::Open,
        report: BELOW,
    },
    WholeRow {
        about: "at that depth",
        words: &[
            b"cover",
            b"a",
            b"b",
            b"--depth",
            b"3",
            b"--length",
            b"1",
            b"--batches",
            b"0",
        ],
        circuit: CHAIN,
        signals: b"l2",
        status: Status::Settled,
        report: AT,
    },
];

fn is_whole<R: Threads + Sync>(rt: &R, alloc: Global, row: &WholeRow) -> Result<bool, Fail> {
    let outcome = Setting::new(row.words, row.circuit, row.signals).run(rt, alloc)?;
    Ok(outcome.is(row.status, row.report, b""))
}

#[test]
fn whole_reports(rt: HostRuntime) -> Result<(), Fail> {
    for row in &WHOLE {
        assert!(rt; is_whole(&rt, rt.alloc(), row)?, "{}", row.about);
    }
    Ok(())
}

/// Whether a report has this status and stands between these bytes.
fn stands(outcome: &Outcome, status: Status, front: &[u8], end: &[u8]) -> bool {
    let out = outcome.out.as_slice();
    outcome.status == status && out.starts_with(front) && out.ends_with(end)
}

/// A counter of one bit with enable and reset, in the two formats.
pub(crate) const COUNTER: &[u8] =
    b"aag 7 2 1 2 4\n2\n4\n6 8\n6\n7\n8 4 10\n10 13 15\n12 2 6\n14 3 7\ni0 enable\ni1 reset\n";

pub(crate) const BINARY_COUNTER: &[u8] =
    b"aig 7 2 1 2 4\n14\n6\n7\n\x02\x04\x03\x04\x01\x02\x02\x08i0 enable\ni1 reset\nl0 Q\no0 Q\no1 !Q\nc\nmade by hand\n";

/// The walk leaves enable at 0. The search finds it at 1 in the first step, and the bit at 1 in the second.
const COUNTED: &[u8] =
    b"ketch 1\nsize 2 1 2\noptions 10 0 1000 100 4 1 20000 2 0 0\nhistory 4\n0 0 0 r zero 0\n1 0 2 r sweep 1\n2 0 ";

/// A goal's line in the report, and what the replay of its witness says.
const REPLAYED: [(&[u8], &[u8]); 4] = [
    (b"\ngoal 0 reached 0\n", b"goal 0 at step 0\n"),
    (b"\ngoal 1 reached ", b"goal 1 at step 1\n"),
    (b"\ngoal 2 reached 1\n", b"goal 2 at step 0\n"),
    (b"\ngoal 3 reached ", b"goal 3 at step 1\n"),
];

/// What follows a piece of a text where it first stands.
pub(crate) fn after<'a>(text: &'a [u8], piece: &[u8]) -> &'a [u8] {
    for start in 0..text.len() {
        let rest = text.get(start..).unwrap_or(b"");
        if rest.starts_with(piece) {
            return rest.get(piece.len()..).unwrap_or(b"");
        }
    }
    b""
}

fn witness_replays<R: Threads + Sync>(
    rt: &R,
    alloc: Global,
    report: &[u8],
    line: &[u8],
    said: &[u8],
) -> Result<bool, Fail> {
    let block = after(report, line);
    let witness = if block.starts_with(b"1\nb") {
        block
    } else {
        after(block, b"\n")
    };
    let outcome = Setting::replay(COUNTER, b"l0\n@enable\n", witness).run(rt, alloc)?;
    Ok(outcome.is(Status::Settled, said, b""))
}

fn is_counted<R: Threads + Sync>(rt: &R, alloc: Global, circuit: &[u8]) -> Result<bool, Fail> {
    let outcome = Setting::cover(circuit, b"l0\n@enable\n").run(rt, alloc)?;
    for row in &REPLAYED {
        if !witness_replays(rt, alloc, &outcome.out, row.0, row.1)? {
            return Ok(false);
        }
    }
    Ok(stands(
        &outcome,
        Status::Settled,
        COUNTED,
        b"\nspents 0\nrefutes 0\nend 4 0 0\n",
    ))
}

#[test]
fn witnesses_replay(rt: HostRuntime) -> Result<(), Fail> {
    assert!(rt; is_counted(&rt, rt.alloc(), COUNTER)?);
    assert!(rt; is_counted(&rt, rt.alloc(), BINARY_COUNTER)?);
    Ok(())
}
