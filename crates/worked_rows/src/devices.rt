//! What a run answers where a device fails at one of its calls.

use crate::setting::Setting;
use cover_run::Status;
use std::alloc::Global;
use std::marker::Sync;
use std::test::Fail;
use std::thread::Threads;

const RING: &[u8] = b"aag 2 0 2 0 0\n2 4 1\n4 2\n";

const SIGNALS: &[u8] = b"l0\nl1\n";

/// No clause over one latch is kept, so two goals stay open.
const RING_REPORT: &[u8] =
    b"ketch 1\nsize 0 2 2\noptions 10 0 1000 100 4 1 20000 1 0 0\nhistory 2\n0 0 1 r zero 0\n1 0 2 r zero 1\nseeds 0\ninvs 0\ngoals 4\ngoal 0 open depth 10 hops strength 1\ngoal 1 reached 0\n1\nb1\n10\n\n.\ngoal 2 reached 1\n1\nb2\n10\n\n\n.\ngoal 3 open depth 10 hops strength 1\nspents 0\nrefutes 0\nend 2 0 2\n";

const FORMULA: &[u8] = b"p cnf 1 2\n1 0\n-1 0\n";

const PROOF: &[u8] = b"3 0 1 2 0\n";

const ACCEPTED: &[u8] = b"accepted\n";

fn cover() -> Setting<'static> {
    Setting::new(
        &[
            b"cover",
            b"a",
            b"b",
            b"--strength",
            b"1",
            b"--batches",
            b"0",
        ],
        RING,
        SIGNALS,
    )
}

fn lrat() -> Setting<'static> {
    Setting::lrat(FORMULA, PROOF)
}

/// Whether a failure at this call of the desk has this status, output and line.
fn desk_fault_is<R: Threads + Sync>(
    rt: &R,
    alloc: Global,
    setting: Setting<'_>,
    call: u64,
    (status, out, line): (Status, &[u8], &[u8]),
) -> Result<bool, Fail> {
    let mut setting = setting;
    setting.desk_fails = Some(call);
    let outcome = setting.run(rt, alloc)?;
    Ok(outcome.is(status, out, line))
}

/// The desk is called three times for each file, and the line names the file.
const DESK_ROWS: &[(u64, &[u8], &[u8])] = &[
    (
        1,
        b"ketch: cannot read circuit\n",
        b"ketch: cannot read formula\n",
    ),
    (
        2,
        b"ketch: cannot read circuit\n",
        b"ketch: cannot read formula\n",
    ),
    (
        3,
        b"ketch: cannot read circuit\n",
        b"ketch: cannot read formula\n",
    ),
    (
        4,
        b"ketch: cannot read signals\n",
        b"ketch: cannot read proof\n",
    ),
    (
        5,
        b"ketch: cannot read signals\n",
        b"ketch: cannot read proof\n",
    ),
    (
        6,
        b"ketch: cannot read signals\n",
        b"ketch: cannot read proof\n",
    ),
];

#[test]
fn desk_fails(rt: HostRuntime) -> Result<(), Fail> {
    for row in DESK_ROWS {
        let answer = (Status::ReadFault, b"".as_slice(), row.1);
        assert!(rt;
            desk_fault_is(&rt, rt.alloc(), cover(), row.0, answer)?,
            "call {}",
            row.0
        );
        let answer = (Status::ReadFault, b"".as_slice(), row.2);
        assert!(rt;
            desk_fault_is(&rt, rt.alloc(), lrat(), row.0, answer)?,
            "call {}",
            row.0
        );
    }
    Ok(())
}

/// There is no seventh call.
#[test]
fn desk_is_left(rt: HostRuntime) -> Result<(), Fail> {
    assert!(rt;
        desk_fault_is(
            &rt,
            rt.alloc(),
            cover(),
            7,
            (Status::Open, RING_REPORT, b"".as_slice())
        )?
    );
    assert!(rt;
        desk_fault_is(
            &rt,
            rt.alloc(),
            lrat(),
            7,
            (Status::Settled, ACCEPTED, b"".as_slice())
        )?
    );
    Ok(())
}

/// Whether a failure after so many writes of at most `most` bytes leaves what these took, or the whole where there
/// are no more.
fn sink_fault_is<R: Threads + Sync>(
    rt: &R,
    alloc: Global,
    setting: Setting<'_>,
    (writes, most): (u32, u32),
    (status, whole): (Status, &[u8]),
) -> Result<bool, Fail> {
    let mut setting = setting;
    setting.sink_fails = Some(u64::from(writes) + 1);
    setting.most = most as usize;
    let outcome = setting.run(rt, alloc)?;
    Ok(match whole.get(..writes.wrapping_mul(most) as usize) {
        Some(taken) if taken.len() < whole.len() => {
            outcome.is(Status::WriteFault, taken, b"ketch: cannot write\n")
        }
        _ => outcome.is(status, whole, b""),
    })
}

#[test]
fn sink_fails(rt: HostRuntime) -> Result<(), Fail> {
    for writes in 0..40 {
        let whole = (Status::Open, RING_REPORT);
        assert!(rt;
            sink_fault_is(&rt, rt.alloc(), cover(), (writes, 16), whole)?,
            "{writes} writes"
        );
    }
    for writes in 0..10 {
        let whole = (Status::Settled, ACCEPTED);
        assert!(rt;
            sink_fault_is(&rt, rt.alloc(), lrat(), (writes, 1), whole)?,
            "{writes} writes"
        );
    }
    Ok(())
}

/// A sink that takes nothing stops the run as a fault does.
#[test]
fn idle_sink(rt: HostRuntime) -> Result<(), Fail> {
    let mut setting = cover();
    setting.most = 0;
    let outcome = setting.run(&rt, rt.alloc())?;
    assert!(rt; outcome.is(Status::WriteFault, b"", b"ketch: cannot write\n"));
    Ok(())
}
