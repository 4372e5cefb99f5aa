//! Reports with one thing changed, and what is wrong with each first.

ghost use Rattle.std.specs.Prelude.{◌≡◌, IfSome};
ghost use Rattle.report_text.specs.Form.{HasForm};

use crate::reports::{Case, RING, STUCK};
use aig_ascii::read_aag;
use aig_model::{Circuit, Signals};
use ketch_base::OutOfMemory;
use report_check::{CheckFault, CheckKind, Part, check_report};
use report_reading::read_report;
use report_text::Report;
use signal_list::read_signals;
use std::alloc::Global;
use std::test::Fail;
use text_words::lines_at_most_bytes;

/// The lines from `first` on, counted from 1, of which `count` go, and what stands in their place.
type Row = (
    &'static Case,
    usize,
    usize,
    &'static [u8],
    Part,
    u32,
    CheckKind,
);

const SIZE_ROWS: [Row; 12] = [
    (
        &STUCK,
        2,
        1,
        b"size 0 1 2\n",
        Part::Size,
        0,
        CheckKind::Differs,
    ),
    (
        &STUCK,
        3,
        1,
        b"options 201 1 2 100 1 1 1 0 0 1\n",
        Part::Size,
        0,
        CheckKind::Options,
    ),
    (
        &STUCK,
        3,
        1,
        b"options 1 17 2 100 1 1 1 0 0 1\n",
        Part::Size,
        0,
        CheckKind::Options,
    ),
    (
        &STUCK,
        3,
        1,
        b"options 1 1 0 100 1 1 1 0 0 1\n",
        Part::Size,
        0,
        CheckKind::Options,
    ),
    (
        &STUCK,
        3,
        1,
        b"options 1 1 100001 100 1 1 1 0 0 1\n",
        Part::Size,
        0,
        CheckKind::Options,
    ),
    (
        &STUCK,
        3,
        1,
        b"options 1 1 2 0 1 1 1 0 0 1\n",
        Part::Size,
        0,
        CheckKind::Options,
    ),
    (
        &STUCK,
        3,
        1,
        b"options 1 1 2 100001 1 1 1 0 0 1\n",
        Part::Size,
        0,
        CheckKind::Options,
    ),
    (
        &STUCK,
        3,
        1,
        b"options 1 1 2 100 51 1 1 0 0 1\n",
        Part::Size,
        0,
        CheckKind::Options,
    ),
    (
        &STUCK,
        3,
        1,
        b"options 1 1 2 100 1 1 0 0 0 1\n",
        Part::Size,
        0,
        CheckKind::Options,
    ),
    (
        &STUCK,
        3,
        1,
        b"options 1 1 2 100 1 1 1000001 0 0 1\n",
        Part::Size,
        0,
        CheckKind::Options,
    ),
    (
        &STUCK,
        3,
        1,
        b"options 1 1 2 100 1 1 1 3 0 1\n",
        Part::Size,
        0,
        CheckKind::Options,
    ),
    (
        &STUCK,
        3,
        1,
        b"options 1 1 2 100 1 1 1 0 17 1\n",
        Part::Size,
        0,
        CheckKind::Options,
    ),
];

const HISTORY_ROWS: [Row; 10] = [
    (
        &STUCK,
        5,
        1,
        b"1 0 0 r zero 0\n",
        Part::History,
        0,
        CheckKind::Number,
    ),
    (
        &STUCK,
        5,
        1,
        b"0 8 0 r zero 0\n",
        Part::History,
        0,
        CheckKind::Caller,
    ),
    (
        &STUCK,
        5,
        1,
        b"0 0 2 r zero 0\n",
        Part::History,
        0,
        CheckKind::Goal,
    ),
    (
        &STUCK,
        5,
        1,
        b"0 0 0 r zero 1\n",
        Part::History,
        0,
        CheckKind::Low,
    ),
    (
        &STUCK,
        5,
        1,
        b"0 0 0 r walk:1 0\n",
        Part::History,
        0,
        CheckKind::Source,
    ),
    (
        &STUCK,
        5,
        1,
        b"0 0 0 r again:0 0\n",
        Part::History,
        0,
        CheckKind::Source,
    ),
    (
        &STUCK,
        5,
        1,
        b"0 0 0 r proved 0\n",
        Part::History,
        0,
        CheckKind::Source,
    ),
    (
        &STUCK,
        5,
        1,
        b"0 0 0 u zero 0\n",
        Part::History,
        0,
        CheckKind::Source,
    ),
    (
        &RING,
        6,
        1,
        b"1 0 1 r sweep 1\n",
        Part::History,
        1,
        CheckKind::Twice,
    ),
    (
        &RING,
        7,
        1,
        b"2 1 1 u proved 2\n",
        Part::History,
        2,
        CheckKind::Kind,
    ),
];

const SEED_ROWS: [Row; 5] = [
    (
        &STUCK,
        3,
        1,
        b"options 1 2 2 100 1 1 1 0 0 1\n",
        Part::Seed,
        0,
        CheckKind::Count,
    ),
    // the start is no reset state, the rows lead to another state, and with no rows they lead to the start
    (&STUCK, 8, 1, b"1\n", Part::Seed, 0, CheckKind::Trace),
    (&STUCK, 10, 1, b"1\n", Part::Seed, 0, CheckKind::Trace),
    (
        &STUCK,
        7,
        4,
        b"seed 0 0\n1\n1\n",
        Part::Seed,
        0,
        CheckKind::Trace,
    ),
    // a batch without a seed leaves the bound and the query of its hop without one
    (
        &STUCK,
        7,
        4,
        b"seed 0 none\n",
        Part::Goal,
        1,
        CheckKind::Bound,
    ),
];

const INV_ROWS: [Row; 6] = [
    // no literal, no such latch, and a reset state that falsifies the clause
    (&RING, 12, 1, b"0\n", Part::Inv, 0, CheckKind::Start),
    (&RING, 12, 1, b"3 0\n", Part::Inv, 0, CheckKind::Start),
    (&RING, 12, 1, b"2 0\n", Part::Inv, 0, CheckKind::Start),
    // what is wrong at the start comes before an earlier clause's proof
    (
        &RING,
        14,
        2,
        b"6 0 4 5 0\n2 0\n",
        Part::Inv,
        0,
        CheckKind::Start,
    ),
    (&RING, 14, 1, b"6 0 4 5 0\n", Part::Inv, 0, CheckKind::Kept),
    (
        &RING,
        17,
        1,
        b"6 0 4 5 2 0\n",
        Part::Inv,
        0,
        CheckKind::Kept,
    ),
];

const GOAL_ROWS: [Row; 17] = [
    (
        &STUCK,
        12,
        8,
        b"goals 1\ngoal 0 reached 0\n1\nb0\n0\n\n.\n",
        Part::Goal,
        0,
        CheckKind::Count,
    ),
    (
        &RING,
        22,
        1,
        b"goal 1 reached 1\n",
        Part::Goal,
        1,
        CheckKind::Verdict,
    ),
    (
        &RING,
        19,
        1,
        b"goal 0 unreachable 3 inv 0\n",
        Part::Goal,
        0,
        CheckKind::Verdict,
    ),
    (
        &STUCK,
        13,
        6,
        b"goal 0 open depth 0 hops 0 strength none\n",
        Part::Goal,
        0,
        CheckKind::Verdict,
    ),
    // a row less, a start that is no reset state, and a trace of another goal
    (&RING, 32, 1, b"", Part::Goal, 2, CheckKind::Trace),
    (&RING, 31, 1, b"01\n", Part::Goal, 2, CheckKind::Trace),
    (&RING, 26, 1, b"\n\n", Part::Goal, 1, CheckKind::Trace),
    (
        &RING,
        35,
        1,
        b"goal 3 unreachable 3 inv 1\n",
        Part::Goal,
        3,
        CheckKind::Inv,
    ),
    (
        &RING,
        37,
        1,
        b"6 0 4 5 0\n",
        Part::Goal,
        3,
        CheckKind::Excludes,
    ),
    // the proof for the goal after
    (
        &RING,
        21,
        1,
        b"6 0 4 5 3 0\n",
        Part::Goal,
        0,
        CheckKind::Excludes,
    ),
    (
        &STUCK,
        19,
        1,
        b"goal 1 open depth 1 hops 0 strength none\n",
        Part::Goal,
        1,
        CheckKind::Bound,
    ),
    (
        &STUCK,
        19,
        1,
        b"goal 1 open depth none hops 0 strength none\n",
        Part::Goal,
        1,
        CheckKind::Bound,
    ),
    (
        &STUCK,
        19,
        1,
        b"goal 1 open depth 0 hops 1 strength none\n",
        Part::Goal,
        1,
        CheckKind::Bound,
    ),
    (
        &STUCK,
        19,
        1,
        b"goal 1 open depth 0 hops noseed strength none\n",
        Part::Goal,
        1,
        CheckKind::Bound,
    ),
    (
        &STUCK,
        19,
        1,
        b"goal 1 open depth 0 hops strength none\n",
        Part::Goal,
        1,
        CheckKind::Bound,
    ),
    (
        &STUCK,
        19,
        1,
        b"goal 1 open depth 0 hops 0 0 strength none\n",
        Part::Goal,
        1,
        CheckKind::Bound,
    ),
    (
        &STUCK,
        19,
        1,
        b"goal 1 open depth 0 hops 0 strength 0\n",
        Part::Goal,
        1,
        CheckKind::Bound,
    ),
];

const SPENT_ROWS: [Row; 13] = [
    // an open goal is left out, and one that isn't there
    (
        &STUCK,
        22,
        1,
        b"blocked 1 1\n",
        Part::Spent,
        0,
        CheckKind::Query,
    ),
    (
        &STUCK,
        26,
        1,
        b"blocked 1 2\n",
        Part::Spent,
        1,
        CheckKind::Query,
    ),
    // the first query of a search sets its bound, so a second one is out of order
    (
        &STUCK,
        25,
        1,
        b"spent sweep 1\n",
        Part::Goal,
        1,
        CheckKind::Bound,
    ),
    (
        &STUCK,
        29,
        2,
        b"spent kept 1 1\n-1 0\n",
        Part::Spent,
        2,
        CheckKind::Query,
    ),
    (&STUCK, 30, 1, b"2 0\n", Part::Spent, 2, CheckKind::Query),
    (&STUCK, 30, 1, b"0\n", Part::Spent, 2, CheckKind::Query),
    (
        &STUCK,
        33,
        1,
        b"spent kept 0 1\n",
        Part::Spent,
        3,
        CheckKind::Query,
    ),
    (
        &STUCK,
        33,
        1,
        b"spent excludes 2 1\n",
        Part::Spent,
        3,
        CheckKind::Query,
    ),
    (
        &STUCK,
        29,
        1,
        b"spent excludes 1 1\n",
        Part::Spent,
        3,
        CheckKind::Query,
    ),
    (
        &STUCK,
        24,
        1,
        b"7 1 -2 0 1 0\n",
        Part::Spent,
        0,
        CheckKind::Proof,
    ),
    (
        &STUCK,
        28,
        1,
        b"7 -2 0 2 0\n",
        Part::Spent,
        1,
        CheckKind::Proof,
    ),
    (
        &STUCK,
        31,
        2,
        b"proof 0\n",
        Part::Spent,
        2,
        CheckKind::Proof,
    ),
    (
        &STUCK,
        36,
        1,
        b"4 1 -1 0 2 0\n",
        Part::Spent,
        3,
        CheckKind::Proof,
    ),
];

const REFUTE_ROWS: [Row; 12] = [
    (
        &STUCK,
        3,
        1,
        b"options 1 1 2 100 1 1 1 0 0 0\n",
        Part::Refute,
        0,
        CheckKind::Query,
    ),
    (
        &STUCK,
        38,
        1,
        b"refute sweep 1\n",
        Part::Refute,
        0,
        CheckKind::Query,
    ),
    (
        &STUCK,
        38,
        1,
        b"refute sweep 2\n",
        Part::Refute,
        0,
        CheckKind::Query,
    ),
    (
        &STUCK,
        38,
        1,
        b"refute hop 1 0\n",
        Part::Refute,
        0,
        CheckKind::Query,
    ),
    (
        &STUCK,
        39,
        1,
        b"blocked 1 1\n",
        Part::Refute,
        0,
        CheckKind::Query,
    ),
    // a step past the bound, and the sweep behind a hop
    (
        &STUCK,
        42,
        1,
        b"refute sweep 1\n",
        Part::Refute,
        1,
        CheckKind::Query,
    ),
    (
        &STUCK,
        42,
        1,
        b"refute hop 0 1\n",
        Part::Refute,
        1,
        CheckKind::Query,
    ),
    (
        &STUCK,
        38,
        8,
        b"refute hop 0 0\nblocked 1 0\nproof 1\n4 0 2 3 0\nrefute sweep 0\nblocked 1 0\nproof 1\n4 0 2 3 0\n",
        Part::Refute,
        1,
        CheckKind::Query,
    ),
    (
        &STUCK,
        41,
        1,
        b"4 0 2 0\n",
        Part::Refute,
        0,
        CheckKind::Proof,
    ),
    (
        &STUCK,
        45,
        1,
        b"4 0 3 0\n",
        Part::Refute,
        1,
        CheckKind::Proof,
    ),
    // the hop's query, the sweep's, and both
    (
        &STUCK,
        37,
        9,
        b"refutes 1\nrefute sweep 0\nblocked 1 0\nproof 1\n4 0 2 3 0\n",
        Part::Refute,
        1,
        CheckKind::Missing,
    ),
    (
        &STUCK,
        37,
        9,
        b"refutes 0\n",
        Part::Refute,
        0,
        CheckKind::Missing,
    ),
];

const END_ROWS: [Row; 3] = [
    (
        &STUCK,
        46,
        1,
        b"end 0 0 1\n",
        Part::End,
        0,
        CheckKind::Counts,
    ),
    (
        &RING,
        40,
        1,
        b"end 2 1 0\n",
        Part::End,
        0,
        CheckKind::Counts,
    ),
    (
        &STUCK,
        46,
        1,
        b"end 1 0 0\n",
        Part::End,
        0,
        CheckKind::Counts,
    ),
];

/// The report's lines with the row's in place of some.
fn text_of(alloc: Global, row: &Row) -> Result<Vec<u8>, OutOfMemory> {
    let (case, first, count, new, ..) = row;
    let mut text = Vec::new(alloc);
    for (place, line) in case.lines.iter().enumerate() {
        if place + 1 == *first {
            text.extend_from_slice(new)?;
        }
        if place + 1 < *first || place + 1 - *first >= *count {
            text.extend_from_slice(line)?;
        }
    }
    Ok(text)
}

fn signals_of(alloc: Global, text: &[u8], circuit: &Circuit) -> Option<Signals>
    ensures { IfSome result (λ signals. signals.circuit ≡ circuit.now) }
{
    if text.len() >= 10 {
        return None;
    }
    lines_at_most_bytes(text);
    read_signals(alloc, text, circuit).ok()
}

fn report_of(alloc: Global, text: &[u8]) -> Option<Report>
    ensures { IfSome result HasForm }
{
    if text.len() >= 10_000 {
        return None;
    }
    match read_report(alloc, text) {
        Ok(report) => Some(report),
        Err(_) => None,
    }
}

/// What the check answers to a report of the case; None where a text can't be read.
fn answer_of(alloc: Global, case: &Case, text: &[u8]) -> Option<Result<(), CheckFault>> {
    let circuit = read_aag(alloc, case.circuit).ok()?;
    let signals = signals_of(alloc, case.signals, &circuit)?;
    let report = report_of(alloc, text)?;
    Some(check_report(alloc, &circuit, &signals, &report))
}

fn is_refused(alloc: Global, row: &Row) -> bool {
    let (case, .., part, at, kind) = *row;
    let wanted = CheckFault::At { part, at, kind };
    match text_of(alloc, row) {
        Ok(text) => answer_of(alloc, case, &text) == Some(Err(wanted)),
        Err(_) => false,
    }
}

fn is_accepted(alloc: Global, case: &'static Case) -> bool {
    let whole: Row = (case, 0, 0, b"", Part::End, 0, CheckKind::Counts);
    match text_of(alloc, &whole) {
        Ok(text) => answer_of(alloc, case, &text) == Some(Ok(())),
        Err(_) => false,
    }
}

#[test]
fn reports_are_accepted(rt: HostRuntime) {
    assert!(rt; is_accepted(rt.alloc(), &RING));
    assert!(rt; is_accepted(rt.alloc(), &STUCK));
}

#[test]
fn sizes_and_options_are_refused(rt: HostRuntime) {
    for (place, row) in SIZE_ROWS.iter().enumerate() {
        assert!(rt; is_refused(rt.alloc(), row), "row {place}");
    }
}

#[test]
fn histories_are_refused(rt: HostRuntime) {
    for (place, row) in HISTORY_ROWS.iter().enumerate() {
        assert!(rt; is_refused(rt.alloc(), row), "row {place}");
    }
}

#[test]
fn seeds_are_refused(rt: HostRuntime) {
    for (place, row) in SEED_ROWS.iter().enumerate() {
        assert!(rt; is_refused(rt.alloc(), row), "row {place}");
    }
}

#[test]
fn clauses_are_refused(rt: HostRuntime) {
    for (place, row) in INV_ROWS.iter().enumerate() {
        assert!(rt; is_refused(rt.alloc(), row), "row {place}");
    }
}

#[test]
fn goals_are_refused(rt: HostRuntime) {
    for (place, row) in GOAL_ROWS.iter().enumerate() {
        assert!(rt; is_refused(rt.alloc(), row), "row {place}");
    }
}

#[test]
fn spent_queries_are_refused(rt: HostRuntime) {
    for (place, row) in SPENT_ROWS.iter().enumerate() {
        assert!(rt; is_refused(rt.alloc(), row), "row {place}");
    }
}

#[test]
fn refuted_queries_are_refused(rt: HostRuntime) {
    for (place, row) in REFUTE_ROWS.iter().enumerate() {
        assert!(rt; is_refused(rt.alloc(), row), "row {place}");
    }
}

#[test]
fn counts_are_refused(rt: HostRuntime) {
    for (place, row) in END_ROWS.iter().enumerate() {
        assert!(rt; is_refused(rt.alloc(), row), "row {place}");
    }
}
