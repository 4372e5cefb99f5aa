//! What the words on the command line mean.

use crate::setting::Setting;
use cover_run::Status;
use std::alloc::Global;
use std::marker::Sync;
use std::test::Fail;
use std::thread::Threads;

const TOGGLE: &[u8] = b"aag 1 0 1 2 0\n2 3\n2\n3\n";

const USAGE: &[u8] = b"ketch: usage: ketch cover|check|goals|replay|lrat|make ..\n";

type Words = &'static [&'static [u8]];

const NO_COMMANDS: &[Words] = &[
    &[],
    &[b"cover"],
    &[b"cover", b"a"],
    &[b"cover", b"a", b"-b"],
    &[b"cover", b"a", b"b", b"c"],
    &[b"hover", b"a", b"b"],
    &[b"goals"],
    &[b"goals", b"a"],
    &[b"goals", b"a", b"-b"],
    &[b"goals", b"a", b"b", b"c"],
    &[b"goals", b"a", b"b", b"--hop", b"4"],
    &[b"replay", b"a", b"b"],
    &[b"replay", b"a", b"b", b"-c"],
    &[b"replay", b"a", b"b", b"c", b"d"],
    &[b"lrat"],
    &[b"lrat", b"a"],
    &[b"lrat", b"", b"b"],
    &[b"lrat", b"a", b"b", b"c"],
    &[b"lrat", b"a", b"b", b"--hop", b"3"],
    &[b"--help", b"cover"],
    &[b"--version", b""],
    &[b"cover", b"--help"],
    &[b"check", b"a", b"b", b"c"],
];

/// Invalid options.
const NO_OPTIONS: &[Words] = &[
    &[b"cover", b"a", b"b", b"--depth", b"201"],
    &[b"cover", b"a", b"b", b"--batches", b"17"],
    &[b"cover", b"a", b"b", b"--length", b"0"],
    &[b"cover", b"a", b"b", b"--length", b"100001"],
    &[b"cover", b"a", b"b", b"--stall", b"0"],
    &[b"cover", b"a", b"b", b"--stall", b"100001"],
    &[b"cover", b"a", b"b", b"--hop", b"51"],
    &[b"cover", b"a", b"b", b"--seed", b"18446744073709551616"],
    &[b"cover", b"a", b"b", b"--seed", b"99999999999999999999999"],
    &[b"cover", b"a", b"b", b"--seed", b"-1"],
    &[b"cover", b"a", b"b", b"--seed", b"+1"],
    &[b"cover", b"a", b"b", b"--seed", b"01"],
    &[b"cover", b"a", b"b", b"--seed", b"00"],
    &[b"cover", b"a", b"b", b"--seed", b""],
    &[b"cover", b"a", b"b", b"--seed", b" 1"],
    &[b"cover", b"a", b"b", b"--lemmas", b"0"],
    &[b"cover", b"a", b"b", b"--lemmas", b"1000001"],
    &[b"cover", b"a", b"b", b"--strength", b"3"],
    &[b"cover", b"a", b"b", b"--rounds", b"1"],
    &[b"cover", b"a", b"b", b"--workers", b"0"],
    &[b"cover", b"a", b"b", b"--workers", b"9"],
    &[b"cover", b"a", b"b", b"--proofs", b"1"],
    &[b"cover", b"a", b"b", b"--proofs", b"--proofs"],
    &[b"cover", b"a", b"b", b"--hop"],
    &[b"cover", b"a", b"b", b"--hop=4"],
    &[b"cover", b"a", b"b", b"--"],
    &[
        b"cover", b"a", b"b", b"--hop", b"4", b"--seed", b"1", b"--hop", b"4",
    ],
];

/// The desk isn't called: its first call would fail, and that would be another status.
fn is_usage<R: Threads + Sync>(rt: &R, alloc: Global, words: Words) -> Result<bool, Fail> {
    let mut setting = Setting::new(words, TOGGLE, b"l0\n");
    setting.desk_fails = Some(1);
    let outcome = setting.run(rt, alloc)?;
    Ok(outcome.is(Status::Usage, b"", USAGE))
}

#[test]
fn usage(rt: HostRuntime) -> Result<(), Fail> {
    for (place, words) in NO_COMMANDS.iter().enumerate() {
        assert!(rt; is_usage(&rt, rt.alloc(), *words)?, "row {place}");
    }
    Ok(())
}

#[test]
fn refused_options(rt: HostRuntime) -> Result<(), Fail> {
    for (place, words) in NO_OPTIONS.iter().enumerate() {
        assert!(rt; is_usage(&rt, rt.alloc(), *words)?, "row {place}");
    }
    Ok(())
}

/// An option that is accepted, its number, and the report's line of options.
const OPTIONS: &[(&[u8], &[u8], &[u8])] = &[
    (b"--depth", b"0", b"options 0 2 1000 100 4 1 20000 2 0 0\n"),
    (
        b"--depth",
        b"200",
        b"options 200 2 1000 100 4 1 20000 2 0 0\n",
    ),
    (
        b"--batches",
        b"0",
        b"options 10 0 1000 100 4 1 20000 2 0 0\n",
    ),
    (
        b"--batches",
        b"16",
        b"options 10 16 1000 100 4 1 20000 2 0 0\n",
    ),
    (b"--length", b"2", b"options 10 2 2 100 4 1 20000 2 0 0\n"),
    (
        b"--length",
        b"100000",
        b"options 10 2 100000 100 4 1 20000 2 0 0\n",
    ),
    (b"--stall", b"1", b"options 10 2 1000 1 4 1 20000 2 0 0\n"),
    (
        b"--stall",
        b"100000",
        b"options 10 2 1000 100000 4 1 20000 2 0 0\n",
    ),
    (b"--hop", b"0", b"options 10 2 1000 100 0 1 20000 2 0 0\n"),
    (b"--hop", b"50", b"options 10 2 1000 100 50 1 20000 2 0 0\n"),
    (b"--seed", b"0", b"options 10 2 1000 100 4 0 20000 2 0 0\n"),
    (
        b"--seed",
        b"18446744073709551615",
        b"options 10 2 1000 100 4 18446744073709551615 20000 2 0 0\n",
    ),
    (b"--lemmas", b"1", b"options 10 2 1000 100 4 1 1 2 0 0\n"),
    (
        b"--lemmas",
        b"1000000",
        b"options 10 2 1000 100 4 1 1000000 2 0 0\n",
    ),
    (
        b"--strength",
        b"0",
        b"options 10 2 1000 100 4 1 20000 0 0 0\n",
    ),
    (
        b"--strength",
        b"1",
        b"options 10 2 1000 100 4 1 20000 1 0 0\n",
    ),
    (
        b"--strength",
        b"2",
        b"options 10 2 1000 100 4 1 20000 2 0 0\n",
    ),
    (
        b"--rounds",
        b"0",
        b"options 10 2 1000 100 4 1 20000 2 0 0\n",
    ),
    (
        b"--workers",
        b"1",
        b"options 10 2 1000 100 4 1 20000 2 0 0\n",
    ),
    (
        b"--workers",
        b"8",
        b"options 10 2 1000 100 4 1 20000 2 0 0\n",
    ),
    (b"--hop", b"4", b"options 10 2 1000 100 4 1 20000 2 0 0\n"),
];

/// Whether a run over the toggle has this status, and these bytes at the front and at the end of its output.
fn shows<R: Threads + Sync>(
    rt: &R,
    alloc: Global,
    words: &[&[u8]],
    status: Status,
    front: &[u8],
    end: &[u8],
) -> Result<bool, Fail> {
    let outcome = Setting::new(words, TOGGLE, b"l0\n").run(rt, alloc)?;
    let out = outcome.out.as_slice();
    Ok(outcome.status == status && out.starts_with(front) && out.ends_with(end))
}

const HEAD: &[u8] = b"ketch 1\nsize 0 1 1\n";

fn is_shown<R: Threads + Sync>(
    rt: &R,
    alloc: Global,
    row: &(&[u8], &[u8], &[u8]),
) -> Result<bool, Fail> {
    let words: [&[u8]; 5] = [b"cover", b"a", b"b", row.0, row.1];
    let outcome = Setting::new(&words, TOGGLE, b"l0\n").run(rt, alloc)?;
    let out = outcome.out.as_slice();
    let line = out.get(HEAD.len()..).unwrap_or(b"");
    Ok(outcome.status == Status::Settled && out.starts_with(HEAD) && line.starts_with(row.2))
}

#[test]
fn options(rt: HostRuntime) -> Result<(), Fail> {
    for (place, row) in OPTIONS.iter().enumerate() {
        assert!(rt; is_shown(&rt, rt.alloc(), row)?, "row {place}");
    }
    Ok(())
}

/// All options at once, in another order.
const ALL_OPTIONS: Words = &[
    b"cover",
    b"a",
    b"b",
    b"--workers",
    b"2",
    b"--rounds",
    b"0",
    b"--proofs",
    b"--strength",
    b"1",
    b"--lemmas",
    b"7",
    b"--seed",
    b"6",
    b"--hop",
    b"5",
    b"--stall",
    b"4",
    b"--length",
    b"3",
    b"--batches",
    b"8",
    b"--depth",
    b"9",
];

#[test]
fn all_options(rt: HostRuntime) -> Result<(), Fail> {
    let head = b"ketch 1\nsize 0 1 1\noptions 9 8 3 4 5 6 7 1 0 1\n";
    assert!(rt; shows(&rt, rt.alloc(), ALL_OPTIONS, Status::Settled, head, b"")?);
    Ok(())
}

const SHORT_WALK: Words = &[b"cover", b"a", b"b", b"--length", b"1"];

/// A walk of one step shows the first state alone, and the sweep finds the other.
#[test]
fn short_walk(rt: HostRuntime) -> Result<(), Fail> {
    assert!(rt;
        shows(
            &rt,
            rt.alloc(),
            SHORT_WALK,
            Status::Settled,
            HEAD,
            b"end 2 0 0\n"
        )?
    );
    Ok(())
}

const LONG_WALK: Words = &[b"cover", b"a", b"b", b"--length", b"100000"];

const WITHIN: &[u8] =
    b"aag 20 19 1 0 0\n2\n4\n6\n8\n10\n12\n14\n16\n18\n20\n22\n24\n26\n28\n30\n32\n34\n36\n38\n40 41\n";

const PAST: &[u8] =
    b"aag 21 20 1 0 0\n2\n4\n6\n8\n10\n12\n14\n16\n18\n20\n22\n24\n26\n28\n30\n32\n34\n36\n38\n42\n40 41\n";

fn long_walk_is<R: Threads + Sync>(
    rt: &R,
    alloc: Global,
    (circuit, signals): (&[u8], &[u8]),
    status: Status,
    line: &[u8],
) -> Result<bool, Fail> {
    let outcome = Setting::new(LONG_WALK, circuit, signals).run(rt, alloc)?;
    Ok(outcome.status == status && outcome.err.as_slice() == line)
}

/// 100,000 steps of 19 inputs are within the limit, and those of 20 are past it.
#[test]
fn long_walk(rt: HostRuntime) -> Result<(), Fail> {
    assert!(rt;
        long_walk_is(
            &rt,
            rt.alloc(),
            (WITHIN, b"l0\n".as_slice()),
            Status::Settled,
            b""
        )?
    );
    assert!(rt;
        long_walk_is(
            &rt,
            rt.alloc(),
            (PAST, b"l0\n".as_slice()),
            Status::Limit,
            b"ketch: limit: walk\n"
        )?
    );
    // A faulty list of signals comes first.
    assert!(rt;
        long_walk_is(
            &rt,
            rt.alloc(),
            (PAST, b"l1\n".as_slice()),
            Status::BadSignals,
            b"ketch: signals line 1: Range\n"
        )?
    );
    Ok(())
}

fn help_is_printed<R: Threads + Sync>(rt: &R, alloc: Global) -> Result<bool, Fail> {
    let mut setting = Setting::new(&[b"--help"], b"", b"");
    setting.desk_fails = Some(1);
    let outcome = setting.run(rt, alloc)?;
    let begins = outcome
        .out
        .as_slice()
        .starts_with(b"Usage: ketch COMMAND ..\n");
    Ok(outcome.status == Status::Settled && begins && outcome.err.is_empty())
}

fn version_is_printed<R: Threads + Sync>(rt: &R, alloc: Global) -> Result<bool, Fail> {
    let outcome = Setting::new(&[b"--version"], b"", b"").run(rt, alloc)?;
    Ok(outcome.is(Status::Settled, b"ketch 0.1.0\n", b""))
}

fn version_is_cut<R: Threads + Sync>(rt: &R, alloc: Global) -> Result<bool, Fail> {
    let mut setting = Setting::new(&[b"--version"], b"", b"");
    setting.sink_fails = Some(2);
    setting.most = 6;
    let outcome = setting.run(rt, alloc)?;
    Ok(outcome.is(Status::WriteFault, b"ketch ", b"ketch: cannot write\n"))
}

#[test]
fn help_and_version(rt: HostRuntime) -> Result<(), Fail> {
    assert!(rt; help_is_printed(&rt, rt.alloc())?);
    assert!(rt; version_is_printed(&rt, rt.alloc())?);
    assert!(rt; version_is_cut(&rt, rt.alloc())?);
    Ok(())
}
