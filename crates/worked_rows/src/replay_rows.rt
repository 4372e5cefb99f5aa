//! What `replay` answers to witnesses.

use crate::setting::Setting;
use cover_run::Status;
use std::alloc::Global;
use std::marker::Sync;
use std::test::Fail;
use std::thread::Threads;

const TOGGLE: &[u8] = b"aag 1 0 1 2 0\n2 3\n2\n3\n";

/// One input; the constraint is the latch, which starts at 1 and takes the input's value.
const HELD: &[u8] = b"aag 2 1 1 0 0 0 1\n2\n4 2 1\n4\n";

/// The circuit, whose signal is `l0`, the witness, the status, the output and the line.
type ReplayRow = (
    &'static [u8],
    &'static [u8],
    Status,
    &'static [u8],
    &'static [u8],
);

const ROWS: &[ReplayRow] = &[
    (
        TOGGLE,
        b"1\nb1\n0\n\n\n.\n",
        Status::Settled,
        b"goal 1 at step 1\n",
        b"",
    ),
    (
        TOGGLE,
        b"1\nb1\nx\n\n\n.\n",
        Status::Settled,
        b"goal 1 at step 1\n",
        b"",
    ),
    (
        TOGGLE,
        b"1\r\nb0\n0\n\n.\nwhat follows",
        Status::Settled,
        b"goal 0 at step 0\n",
        b"",
    ),
    (
        TOGGLE,
        b"1\nb1\n1\n\n\n.\n",
        Status::Refused,
        b"",
        b"ketch: refused: trace: NotReset 0\n",
    ),
    (
        TOGGLE,
        b"1\nb0\n0\n\n\n.\n",
        Status::Refused,
        b"",
        b"ketch: refused: trace: Property\n",
    ),
    (
        TOGGLE,
        b"1\nb1\n00\n\n\n.\n",
        Status::Refused,
        b"",
        b"ketch: refused: witness at 5: Length\n",
    ),
    (
        TOGGLE,
        b"2\nb1\n0\n\n.\n",
        Status::Refused,
        b"",
        b"ketch: refused: witness at 0: Status\n",
    ),
    (
        TOGGLE,
        b"1\nc1\n0\n\n.\n",
        Status::Refused,
        b"",
        b"ketch: refused: witness at 2: Property\n",
    ),
    (
        TOGGLE,
        b"1\nb1\n0\n.\n",
        Status::Refused,
        b"",
        b"ketch: refused: witness at 7: NoRows\n",
    ),
    (
        TOGGLE,
        b"1\nb1\n0\n\n",
        Status::Refused,
        b"",
        b"ketch: refused: witness at 8: Truncated\n",
    ),
    (
        HELD,
        b"1\nb1\n1\n1\n1\n.\n",
        Status::Settled,
        b"goal 1 at step 1\n",
        b"",
    ),
    (
        HELD,
        b"1\nb1\n1\n1\n0\n1\n.\n",
        Status::Refused,
        b"",
        b"ketch: refused: trace: Constraint 2\n",
    ),
    (
        b"aag 1 1 0 0 0\n3\n",
        b"",
        Status::BadCircuit,
        b"",
        b"ketch: circuit at 14: Defined\n",
    ),
];

fn answers<R: Threads + Sync>(rt: &R, alloc: Global, row: &ReplayRow) -> Result<bool, Fail> {
    let outcome = Setting::replay(row.0, b"l0\n", row.1).run(rt, alloc)?;
    Ok(outcome.is(row.2, row.3, row.4))
}

#[test]
fn witnesses(rt: HostRuntime) -> Result<(), Fail> {
    for (place, row) in ROWS.iter().enumerate() {
        assert!(rt; answers(&rt, rt.alloc(), row)?, "row {place}");
    }
    Ok(())
}

/// The files are read in the order of the words, and the fault is that of the last that was started.
const READ_FAULTS: &[(u64, &[u8])] = &[
    (1, b"ketch: cannot read circuit\n"),
    (4, b"ketch: cannot read signals\n"),
    (7, b"ketch: cannot read witness\n"),
    (8, b"ketch: cannot read witness\n"),
];

fn faults<R: Threads + Sync>(rt: &R, alloc: Global, call: u64, line: &[u8]) -> Result<bool, Fail> {
    let mut setting = Setting::replay(TOGGLE, b"l0\n", b"1\nb1\n0\n\n\n.\n");
    setting.desk_fails = Some(call);
    let outcome = setting.run(rt, alloc)?;
    Ok(outcome.is(Status::ReadFault, b"", line))
}

#[test]
fn read_faults(rt: HostRuntime) -> Result<(), Fail> {
    for (call, line) in READ_FAULTS {
        assert!(rt; faults(&rt, rt.alloc(), *call, *line)?, "call {call}");
    }
    Ok(())
}
