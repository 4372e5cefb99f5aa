//! What `cover` answers to small circuits, and to what it refuses.

use crate::setting::Setting;
use cover_run::Status;
use std::alloc::Global;
use std::marker::Sync;
use std::test::Fail;
use std::thread::Threads;

const TOGGLE: &[u8] = b"aag 1 0 1 2 0\n2 3\n2\n3\n";

const TOGGLE_REPORT: &[u8] =
    b"ketch 1\nsize 0 1 1\noptions 10 0 1000 100 4 1 20000 2 0 0\nhistory 2\n0 0 0 r zero 0\n1 0 1 r zero 1\nseeds 0\ninvs 0\ngoals 2\ngoal 0 reached 0\n1\nb0\n0\n\n.\ngoal 1 reached 1\n1\nb1\n0\n\n\n.\nspents 0\nrefutes 0\nend 2 0 0\n";

/// The free latch starts at 0 in the zero walk, and the sweep finds its other value.
const FREE_REPORT: &[u8] =
    b"ketch 1\nsize 0 1 1\noptions 10 0 1000 100 4 1 20000 2 0 0\nhistory 2\n0 0 0 r zero 0\n1 0 1 r sweep 1\nseeds 0\ninvs 0\ngoals 2\ngoal 0 reached 0\n1\nb0\n0\n\n.\ngoal 1 reached 1\n1\nb1\n1\n\n.\nspents 0\nrefutes 0\nend 2 0 0\n";

/// The signal is the negated latch, so the walk begins with goal 1.
const NEGATED_REPORT: &[u8] =
    b"ketch 1\nsize 0 1 1\noptions 10 0 1000 100 4 1 20000 2 0 0\nhistory 2\n0 0 1 r zero 0\n1 0 0 r zero 1\nseeds 0\ninvs 0\ngoals 2\ngoal 0 reached 1\n1\nb0\n0\n\n\n.\ngoal 1 reached 0\n1\nb1\n0\n\n.\nspents 0\nrefutes 0\nend 2 0 0\n";

/// What the row is about, the circuit, the signals, the status, and the report.
type ReportRow = (
    &'static str,
    &'static [u8],
    &'static [u8],
    Status,
    &'static [u8],
);

const REPORTS: &[ReportRow] = &[
    (
        "the toggle",
        TOGGLE,
        b"l0\n",
        Status::Settled,
        TOGGLE_REPORT,
    ),
    (
        "a negated output",
        TOGGLE,
        b"# the second output\n o1 ",
        Status::Settled,
        NEGATED_REPORT,
    ),
    (
        "a free reset",
        b"aag 1 0 1 0 0\n2 2 2\n",
        b"l0\n",
        Status::Settled,
        FREE_REPORT,
    ),
];

fn is_reported<R: Threads + Sync>(rt: &R, alloc: Global, row: &ReportRow) -> Result<bool, Fail> {
    let outcome = Setting::cover(row.1, row.2).run(rt, alloc)?;
    Ok(outcome.is(row.3, row.4, b""))
}

#[test]
fn reports(rt: HostRuntime) -> Result<(), Fail> {
    for row in REPORTS {
        assert!(rt; is_reported(&rt, rt.alloc(), row)?, "{}", row.0);
    }
    Ok(())
}

const LONG_LIST: &[u8] = &[b'#'; 65537];

/// What the row is about, the circuit, the signals, the status, and the line.
const REFUSALS: &[ReportRow] = &[
    (
        "no signal",
        b"aag 0 0 0 0 0\n",
        b"# none\n\n",
        Status::BadSignals,
        b"ketch: signals line 0: Empty\n",
    ),
    (
        "a signal that isn't there",
        b"aag 0 0 0 0 0\n",
        b"l0",
        Status::BadSignals,
        b"ketch: signals line 1: Range\n",
    ),
    (
        "a line of no form",
        TOGGLE,
        b"l0\nx\n",
        Status::BadSignals,
        b"ketch: signals line 2: Form\n",
    ),
    (
        "a literal that stands twice",
        TOGGLE,
        b"l0\n\n n2 \n",
        Status::BadSignals,
        b"ketch: signals line 3: Repeated\n",
    ),
    (
        "a name that nobody has",
        TOGGLE,
        b"@state",
        Status::BadSignals,
        b"ketch: signals line 1: NoName\n",
    ),
    (
        "an eleventh signal",
        b"aag 11 0 11 0 0\n2 0\n4 0\n6 0\n8 0\n10 0\n12 0\n14 0\n16 0\n18 0\n20 0\n22 0\n",
        b"l0\nl1\nl2\nl3\nl4\nl5\nl6\nl7\nl8\nl9\nl10\n",
        Status::BadSignals,
        b"ketch: signals line 11: TooMany\n",
    ),
    (
        "a name of two places",
        b"aag 1 0 1 1 0\n2 3\n2\nl0 Q\no0 Q\n",
        b"@Q\n",
        Status::BadSignals,
        b"ketch: signals line 1: TwoNames\n",
    ),
    (
        "frames that are too large",
        b"aag 400000 0 0 1 0\n0\n",
        b"o0\n",
        Status::Limit,
        b"ketch: limit: frames\n",
    ),
    (
        "signals too long",
        TOGGLE,
        LONG_LIST,
        Status::Limit,
        b"ketch: limit: signals\n",
    ),
];

fn is_refused<R: Threads + Sync>(rt: &R, alloc: Global, row: &ReportRow) -> Result<bool, Fail> {
    let outcome = Setting::cover(row.1, row.2).run(rt, alloc)?;
    Ok(outcome.is(row.3, b"", row.4))
}

#[test]
fn refusals(rt: HostRuntime) -> Result<(), Fail> {
    for row in REFUSALS {
        assert!(rt; is_refused(&rt, rt.alloc(), row)?, "{}", row.0);
    }
    Ok(())
}

/// A circuit, and the line.
const BAD_CIRCUITS: &[(&[u8], &[u8])] = &[
    (b"", b"ketch: circuit at 0: Header\n"),
    (b"aig\n", b"ketch: circuit at 0: Header\n"),
    (b"aag 1 0 1 0 0\n", b"ketch: circuit at 14: Truncated\n"),
    (
        b"aag 1 0 1 0 0 0 0 1\n2 3\n",
        b"ketch: circuit at 18: Liveness\n",
    ),
    (b"aag 4000000 0 0 0 0\n", b"ketch: circuit at 4: Limit\n"),
    (b"aag 1 0 1 0 0\n2 3 4\n", b"ketch: circuit at 18: Reset\n"),
    (
        b"aag 2 1 0 1 0\n2\n4\n",
        b"ketch: circuit at 16: Undefined\n",
    ),
    (
        b"aag 1 1 0 0 0\n2\ni1 a\n",
        b"ketch: circuit at 16: Symbol\n",
    ),
    (
        b"aag 3 1 0 1 2\n2\n4\n4 6 2\n6 4 2\n",
        b"ketch: circuit at 18: Cycle\n",
    ),
];

fn is_bad<R: Threads + Sync>(
    rt: &R,
    alloc: Global,
    circuit: &[u8],
    line: &[u8],
) -> Result<bool, Fail> {
    let outcome = Setting::cover(circuit, b"x").run(rt, alloc)?;
    Ok(outcome.is(Status::BadCircuit, b"", line))
}

#[test]
fn bad_circuits(rt: HostRuntime) -> Result<(), Fail> {
    for (place, row) in BAD_CIRCUITS.iter().enumerate() {
        assert!(rt; is_bad(&rt, rt.alloc(), row.0, row.1)?, "row {place}");
    }
    Ok(())
}
