//! What the commands answer to circuits in the binary format.

use crate::setting::Setting;
use crate::sweep_rows::{BINARY_COUNTER, after};
use cover_run::Status;
use std::alloc::Global;
use std::marker::Sync;
use std::test::Fail;
use std::thread::Threads;

/// A gate whose second delta has two bytes.
const WIDE: &[u8] = b"aig 66 64 1 1 1\n132\n132\n\x02\x80\x01";

/// The circuit, the signals, the status, the output and the line.
type Row = (
    &'static [u8],
    &'static [u8],
    Status,
    &'static [u8],
    &'static [u8],
);

const COVERED: &[Row] = &[
    (
        BINARY_COUNTER,
        b"@Q\n",
        Status::BadSignals,
        b"",
        b"ketch: signals line 1: TwoNames\n",
    ),
    (
        b"aig 66 64 1 1 1\n132\n132\n\x02\x80",
        b"o0\n",
        Status::BadCircuit,
        b"",
        b"ketch: circuit at 26: Truncated\n",
    ),
    (
        b"aig 1 0 0 0 1\n\x00\x00",
        b"n2\n",
        Status::BadCircuit,
        b"",
        b"ketch: circuit at 14: Delta\n",
    ),
    (
        b"aig 2 0 0 0 1\n\x02\x00",
        b"n2\n",
        Status::BadCircuit,
        b"",
        b"ketch: circuit at 4: Header\n",
    ),
    (
        b"aig",
        b"n2\n",
        Status::BadCircuit,
        b"",
        b"ketch: circuit at 0: Header\n",
    ),
];

fn covers<R: Threads + Sync>(rt: &R, alloc: Global, row: &Row) -> Result<bool, Fail> {
    let outcome = Setting::cover(row.0, row.1).run(rt, alloc)?;
    Ok(outcome.is(row.2, row.3, row.4))
}

#[test]
fn covered(rt: HostRuntime) -> Result<(), Fail> {
    for (place, row) in COVERED.iter().enumerate() {
        assert!(rt; covers(&rt, rt.alloc(), row)?, "row {place}");
    }
    Ok(())
}

/// The latch stays 0, and so does the output.
fn wide_is_covered<R: Threads + Sync>(rt: &R, alloc: Global) -> Result<bool, Fail> {
    let outcome = Setting::cover(WIDE, b"o0\n").run(rt, alloc)?;
    let out = outcome.out.as_slice();
    let clause = after(out, b"\ninvs 1\ninv 1\n").starts_with(b"-1 0\nproof 1\n");
    Ok(outcome.status == Status::Settled && clause && out.ends_with(b"end 1 1 0\n"))
}

/// The goal circuit of a binary file is printed as ASCII.
fn goals_are_printed<R: Threads + Sync>(rt: &R, alloc: Global) -> Result<bool, Fail> {
    let outcome = Setting::goals(b"aig 1 0 1 2 0\n3\n2\n3\n", b"l0\n").run(rt, alloc)?;
    Ok(outcome.is(Status::Settled, b"aag 1 0 1 0 0 2\n2 3\n3\n2\n", b""))
}

fn witness_is_replayed<R: Threads + Sync>(rt: &R, alloc: Global) -> Result<bool, Fail> {
    let setting = Setting::replay(b"aig 1 0 1 2 0\n3\n2\n3\n", b"l0\n", b"1\nb1\n0\n\n\n.\n");
    let outcome = setting.run(rt, alloc)?;
    Ok(outcome.is(Status::Settled, b"goal 1 at step 1\n", b""))
}

#[test]
fn other_commands(rt: HostRuntime) -> Result<(), Fail> {
    assert!(rt; wide_is_covered(&rt, rt.alloc())?);
    assert!(rt; goals_are_printed(&rt, rt.alloc())?);
    assert!(rt; witness_is_replayed(&rt, rt.alloc())?);
    Ok(())
}
