//! What `goals` prints, and what it refuses.

use crate::setting::Setting;
use cover_run::Status;
use std::alloc::Global;
use std::marker::Sync;
use std::test::Fail;
use std::thread::Threads;

const RING: &[u8] = b"aag 2 0 2 0 0\n2 4 1\n4 2\n";

/// What the row is about, the circuit, the signals, and the goal circuit.
type ExportRow = (&'static str, &'static [u8], &'static [u8], &'static [u8]);

const EXPORTS: &[ExportRow] = &[
    (
        "one signal needs no gate",
        b"aag 1 0 1 2 0\n2 3\n2\n3\n",
        b"l0\n",
        b"aag 1 0 1 0 0 2\n2 3\n3\n2\n",
    ),
    (
        "the ring",
        RING,
        b"l0\nl1\n",
        b"aag 6 0 2 0 4 4\n2 4 1\n4 2\n6\n8\n10\n12\n6 3 5\n8 2 5\n10 3 4\n12 2 4\n",
    ),
    (
        "gates in their order, and names of inputs",
        b"aag 7 2 1 2 4\n2\n4\n6 8\n6\n7\n8 4 10\n10 13 15\n12 2 6\n14 3 7\ni0 enable\ni1 reset\no0 count\n",
        b"l0\n@enable\n",
        b"aag 11 2 1 0 8 4\n2\n4\n6 8\n16\n18\n20\n22\n12 2 6\n14 3 7\n10 13 15\n8 4 10\n16 7 3\n18 6 3\n20 7 2\n22 6 2\ni0 enable\ni1 reset\n",
    ),
    (
        "a constraint, and a bad literal that goes",
        b"aag 1 0 1 0 0 1 1\n2 3\n2\n3\n",
        b"b0\n",
        b"aag 1 0 1 0 0 2 1\n2 3\n3\n2\n3\n",
    ),
    (
        "a signal that nothing defines",
        b"aag 3 1 0 0 0\n2\n",
        b"n7\n",
        b"aag 3 1 0 0 0 2\n2\n0\n1\n",
    ),
    (
        "as many variables as there may be",
        b"aag 3999999 1 0 0 0\n2\n",
        b"i0\n",
        b"aag 3999999 1 0 0 0 2\n2\n3\n2\n",
    ),
];

/// What a run of `goals` over a circuit and signals leaves.
fn answers<R: Threads + Sync>(
    rt: &R,
    alloc: Global,
    (circuit, signals): (&[u8], &[u8]),
    status: Status,
    out: &[u8],
    line: &[u8],
) -> Result<bool, Fail> {
    let outcome = Setting::goals(circuit, signals).run(rt, alloc)?;
    Ok(outcome.is(status, out, line))
}

#[test]
fn exports(rt: HostRuntime) -> Result<(), Fail> {
    for row in EXPORTS {
        assert!(rt;
            answers(&rt, rt.alloc(), (row.1, row.2), Status::Settled, row.3, b"")?,
            "{}",
            row.0
        );
    }
    Ok(())
}

/// The circuit, the signals, the status, and the line.
const REFUSED: &[(&[u8], &[u8], Status, &[u8])] = &[
    (
        b"aag 3999999 1 0 0 0\n2\n",
        b"i0\nn3\n",
        Status::Limit,
        b"ketch: limit: goals\n",
    ),
    (
        b"aag 3999999 0 0 1 0\n0\n",
        b"n2\nn4\n",
        Status::Limit,
        b"ketch: limit: goals\n",
    ),
    (
        b"aag 3999999 1 0 0 0\n2\n",
        b"i0\ni1\n",
        Status::BadSignals,
        b"ketch: signals line 2: Range\n",
    ),
    (
        b"aag 1 1 0 0 0\n3\n",
        b"",
        Status::BadCircuit,
        b"ketch: circuit at 14: Defined\n",
    ),
    (
        RING,
        b"",
        Status::BadSignals,
        b"ketch: signals line 0: Empty\n",
    ),
];

#[test]
fn refused(rt: HostRuntime) -> Result<(), Fail> {
    for (place, row) in REFUSED.iter().enumerate() {
        assert!(rt;
            answers(&rt, rt.alloc(), (row.0, row.1), row.2, b"", row.3)?,
            "row {place}"
        );
    }
    Ok(())
}

fn is_cut<R: Threads + Sync>(rt: &R, alloc: Global) -> Result<bool, Fail> {
    let mut setting = Setting::goals(RING, b"l0\n");
    setting.sink_fails = Some(2);
    setting.most = 4;
    let outcome = setting.run(rt, alloc)?;
    Ok(outcome.is(Status::WriteFault, b"aag ", b"ketch: cannot write\n"))
}

#[test]
fn cut(rt: HostRuntime) -> Result<(), Fail> {
    assert!(rt; is_cut(&rt, rt.alloc())?);
    Ok(())
}
