//! The verdicts of small circuits at each strength, which a plain program foretold that tries all states.

use crate::setting::Setting;
use crate::sweep_rows::after;
use cover_run::Status;
use std::alloc::Global;
use std::marker::Sync;
use std::test::Fail;
use std::thread::Threads;

/// A circuit, and by strength the first letters of its goals' verdicts: `r` where a legal run shows the goal, else `u`
/// where the greatest invariant among the clauses excludes it, else `o`.
struct VerdictRow {
    about: &'static str,
    circuit: &'static [u8],
    signals: &'static [u8],
    verdicts: [&'static [u8]; 3],
}

type Words = &'static [&'static [u8]];

/// The words of a run, by strength.
const COVERS: [Words; 3] = [
    &[
        b"cover",
        b"a",
        b"b",
        b"--batches",
        b"0",
        b"--strength",
        b"0",
    ],
    &[
        b"cover",
        b"a",
        b"b",
        b"--batches",
        b"0",
        b"--strength",
        b"1",
    ],
    &[
        b"cover",
        b"a",
        b"b",
        b"--batches",
        b"0",
        b"--strength",
        b"2",
    ],
];

const ROWS: [VerdictRow; 14] = [
    VerdictRow {
        about: "a ring of two latches",
        circuit: b"aag 2 0 2 0 0\n2 4 1\n4 2\n",
        signals: b"l0\nl1",
        verdicts: [b"orro", b"orro", b"urru"],
    },
    VerdictRow {
        about: "a one walks through three latches",
        circuit: b"aag 3 0 3 0 0\n2 1\n4 2\n6 4\n",
        signals: b"l1\nl2",
        verdicts: [b"rror", b"rror", b"rrur"],
    },
    VerdictRow {
        about: "an input toggles the latch",
        circuit: b"aag 5 1 1 0 3\n2\n4 10\n6 4 2\n8 5 3\n10 7 9\n",
        signals: b"l0",
        verdicts: [b"rr", b"rr", b"rr"],
    },
    VerdictRow {
        about: "counts to three, and begins anew",
        circuit: b"aag 5 0 2 0 3\n2 3\n4 10\n6 2 4\n8 3 5\n10 7 9\n",
        signals: b"l0\nl1",
        verdicts: [b"rrrr", b"rrrr", b"rrrr"],
    },
    VerdictRow {
        about: "counts to two, and begins anew",
        circuit: b"aag 3 0 2 0 1\n2 6\n4 2\n6 3 5\n",
        signals: b"l0\nl1",
        verdicts: [b"rrro", b"rrro", b"rrru"],
    },
    VerdictRow {
        about: "a free reset goes round",
        circuit: b"aag 2 0 2 0 0\n2 4 2\n4 2\n",
        signals: b"l0\nl1",
        verdicts: [b"rrro", b"rrro", b"rrru"],
    },
    VerdictRow {
        about: "a latch that keeps whatever it starts with",
        circuit: b"aag 1 0 1 0 0\n2 2 2\n",
        signals: b"l0",
        verdicts: [b"rr", b"rr", b"rr"],
    },
    VerdictRow {
        about: "two free resets, of which a constraint wants that they agree",
        circuit: b"aag 6 1 2 0 3 0 1\n2\n4 2 4\n6 2 6\n13\n8 4 6\n10 5 7\n12 9 11\n",
        signals: b"l0\nl1",
        verdicts: [b"ruur", b"ruur", b"ruur"],
    },
    VerdictRow {
        about: "a constraint forbids the input",
        circuit: b"aag 2 1 1 0 0 0 1\n2\n4 2\n3\n",
        signals: b"l0",
        verdicts: [b"ro", b"ru", b"ru"],
    },
    VerdictRow {
        about: "a constraint is false after one step",
        circuit: b"aag 1 0 1 0 0 0 1\n2 3\n3\n",
        signals: b"l0",
        verdicts: [b"ru", b"ru", b"ru"],
    },
    VerdictRow {
        about: "a one goes round three latches",
        circuit: b"aag 3 0 3 0 0\n2 6 1\n4 2\n6 4\n",
        signals: b"l0\nl1\nl2",
        verdicts: [b"orrorooo", b"orrorooo", b"orruruuu"],
    },
    VerdictRow {
        about: "two grants, of which the first has priority",
        circuit: b"aag 5 2 2 0 1\n2\n4\n6 2\n8 10\n10 3 4\n",
        signals: b"l0\nl1",
        verdicts: [b"rrro", b"rrro", b"rrru"],
    },
    VerdictRow {
        about: "a latch that stays 1, and one that toggles while it does",
        circuit: b"aag 3 0 2 0 1\n2 2 1\n4 6\n6 2 5\n",
        signals: b"l0\nl1",
        verdicts: [b"oror", b"urur", b"urur"],
    },
    VerdictRow {
        about: "a constraint forbids the input twice in a row",
        circuit: b"aag 4 1 2 0 1 0 1\n2\n4 2\n8 4\n7\n6 2 4\n",
        signals: b"l0\nl1",
        verdicts: [b"rrro", b"rrro", b"rrru"],
    },
];

/// Whether a report has these verdicts, in the order of goals, and no more.
fn are_verdicts(report: &[u8], verdicts: &[u8]) -> bool {
    let mut rest = report;
    for verdict in verdicts {
        rest = after(after(rest, b"\ngoal "), b" ");
        if rest.first() != Some(verdict) {
            return false;
        }
    }
    after(rest, b"\ngoal ").is_empty()
}

fn has_verdicts<R: Threads + Sync>(
    rt: &R,
    alloc: Global,
    words: Words,
    row: &VerdictRow,
    verdicts: &[u8],
) -> Result<bool, Fail> {
    let outcome = Setting::new(words, row.circuit, row.signals).run(rt, alloc)?;
    let status = if verdicts.contains(&b'o') {
        Status::Open
    } else {
        Status::Settled
    };
    Ok(outcome.status == status && are_verdicts(&outcome.out, verdicts))
}

fn has_all<R: Threads + Sync>(rt: &R, alloc: Global, row: &VerdictRow) -> Result<bool, Fail> {
    for (words, verdicts) in COVERS.iter().zip(&row.verdicts) {
        if !has_verdicts(rt, alloc, *words, row, *verdicts)? {
            return Ok(false);
        }
    }
    Ok(true)
}

#[test]
fn verdicts_of_all_states(rt: HostRuntime) -> Result<(), Fail> {
    for row in &ROWS {
        assert!(rt; has_all(&rt, rt.alloc(), row)?, "{}", row.about);
    }
    Ok(())
}
