//! What `lrat` answers to formulas and proofs.

use crate::setting::Setting;
use cover_run::Status;
use std::alloc::Global;
use std::marker::Sync;
use std::test::Fail;
use std::thread::Threads;

/// The clauses 1 and -1.
const CONTRARY: &[u8] = b"p cnf 1 2\n1 0\n-1 0\n";

const ACCEPTED: &[&[u8]] = &[
    b"3 0 1 2 0\n",
    b"c what comes after the empty clause isn't judged\r\n\n3 0 2 1 0\n3 d 9 0\n",
    b"4 1 0 1 0\n3 d 4 0\n5 0 1 2 0",
];

/// Whether a formula and a proof have this status, output and line.
fn answers<R: Threads + Sync>(
    rt: &R,
    alloc: Global,
    (formula, proof): (&[u8], &[u8]),
    status: Status,
    out: &[u8],
    line: &[u8],
) -> Result<bool, Fail> {
    let outcome = Setting::lrat(formula, proof).run(rt, alloc)?;
    Ok(outcome.is(status, out, line))
}

#[test]
fn accepted(rt: HostRuntime) -> Result<(), Fail> {
    for (place, proof) in ACCEPTED.iter().enumerate() {
        assert!(rt;
            answers(
                &rt,
                rt.alloc(),
                (CONTRARY, *proof),
                Status::Settled,
                b"accepted\n",
                b""
            )?,
            "row {place}"
        );
    }
    Ok(())
}

/// A proof for the contrary clauses, and the line.
const REFUSED_STEPS: &[(&[u8], &[u8])] = &[
    (b"3 0 1 0\n", b"ketch: refused: step 1: NoConflict\n"),
    (b"3 0 -1 2 0\n", b"ketch: refused: step 1: NegativeHint\n"),
    (b"3 0 9 0\n", b"ketch: refused: step 1: UnknownId 9\n"),
    (b"2 0 1 2 0\n", b"ketch: refused: step 1: OldId\n"),
    (b"", b"ketch: refused: step 0: NoEmpty\n"),
    (
        b"2 d 1 0\n3 0 1 2 0\n",
        b"ketch: refused: step 2: UnknownId 1\n",
    ),
    (b"2 d 1 1 0\n", b"ketch: refused: step 1: UnknownId 1\n"),
    (b"3 1 -1 0 0\n", b"ketch: refused: step 1: NoEmpty\n"),
];

#[test]
fn refused_steps(rt: HostRuntime) -> Result<(), Fail> {
    for (place, row) in REFUSED_STEPS.iter().enumerate() {
        assert!(rt;
            answers(
                &rt,
                rt.alloc(),
                (CONTRARY, row.0),
                Status::Refused,
                b"",
                row.1
            )?,
            "row {place}"
        );
    }
    Ok(())
}

/// A formula, a proof, and the line.
const REFUSED: &[(&[u8], &[u8], &[u8])] = &[
    (
        CONTRARY,
        b"3 0 x 0\n",
        b"ketch: refused: proof line 1: Number\n",
    ),
    (
        CONTRARY,
        b"\n3 0 1 0 5\n",
        b"ketch: refused: proof line 2: Form\n",
    ),
    (
        CONTRARY,
        b"3 0 1",
        b"ketch: refused: proof line 1: Truncated\n",
    ),
    (b"", b"x", b"ketch: refused: formula line 1: Header\n"),
    (
        b"p cnf 1 1\n2 0\n",
        b"",
        b"ketch: refused: formula line 2: Literal\n",
    ),
    (
        b"p cnf 1 2\n1 0\n",
        b"",
        b"ketch: refused: formula line 2: Count\n",
    ),
    (
        b"p cnf 1 0\n\n\n\n\n\n\n\n\n1 0\n",
        b"",
        b"ketch: refused: formula line 10: Count\n",
    ),
    (
        b"p cnf 1 1\n1",
        b"",
        b"ketch: refused: formula line 2: Truncated\n",
    ),
    (
        b"p dnf 1 1\n",
        b"x",
        b"ketch: refused: formula line 1: Header\n",
    ),
    (
        b"p cnf 2 1\n1 2 0\n",
        b"2 0 1 0\n",
        b"ketch: refused: step 1: NotUnit 1\n",
    ),
];

#[test]
fn refused_texts(rt: HostRuntime) -> Result<(), Fail> {
    for (place, row) in REFUSED.iter().enumerate() {
        assert!(rt;
            answers(&rt, rt.alloc(), (row.0, row.1), Status::Refused, b"", row.2)?,
            "row {place}"
        );
    }
    Ok(())
}

const LARGE: &[&[u8]] = &[b"p cnf 4000001 0\n", b"p cnf 0 20000001\n"];

/// A header past the limits is no fault of the text, and the proof isn't looked at.
#[test]
fn large_formulas(rt: HostRuntime) -> Result<(), Fail> {
    for (place, formula) in LARGE.iter().enumerate() {
        assert!(rt;
            answers(
                &rt,
                rt.alloc(),
                (*formula, b"x".as_slice()),
                Status::Limit,
                b"",
                b"ketch: limit: formula\n"
            )?,
            "row {place}"
        );
    }
    Ok(())
}
