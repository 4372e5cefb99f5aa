//! A real file, read whole; and names of which none can be started.

use super::*;
use crate::read::{ReadFault, read_file};
use std::alloc::Global;
use std::fs;
use std::test::Fail;

const PATH: &str = "run_io_host_desk.txt";

const TEXT: &[u8] = &[7; 10000];

const TOO_LONG_NAME: &[u8] = &[b'a'; NAME_ROOM + 1];

/// As long as a name may be, and one byte too long for a path of the host.
const LONGEST_NAME: &[u8] = &[b'a'; NAME_ROOM];

const NAMES: [&'static [u8]; 6] = [
    b"run_io_host_desk.txt",
    LONGEST_NAME,
    TOO_LONG_NAME,
    b"\xff",
    b"a\0",
    b".",
];

fn is_whole<R: Files>(alloc: Global, desk: &mut HostDesk<'_, R>) -> bool {
    match read_file(alloc, desk, PATH.as_bytes(), 10000) {
        Ok(bytes) => bytes.as_slice() == TEXT,
        Err(_) => false,
    }
}

/// Whether a file is refused for this, with this many faults from then on.
fn is_refused<R: Files>(
    alloc: Global,
    desk: &mut HostDesk<'_, R>,
    (name, limit): (&[u8], u16),
    wanted: ReadFault,
    faults: u64,
) -> bool {
    match read_file(alloc, desk, name, u64::from(limit)) {
        Ok(_) => false,
        Err(fault) => fault == wanted && desk.faults == faults,
    }
}

fn file_is_read(rt: &HostRuntime, desk: &mut HostDesk<'_, HostRuntime>) -> Result<bool, Fail> {
    fs::write(rt, PATH, TEXT)?;
    let whole = is_whole(rt.alloc(), desk);
    let refused = is_refused(
        rt.alloc(),
        desk,
        (PATH.as_bytes(), 9999),
        ReadFault::TooLong,
        0,
    );
    fs::remove_file(rt, PATH)?;
    Ok(whole && refused)
}

#[test]
fn reads_a_file(rt: HostRuntime) -> Result<(), Fail> {
    let mut desk = HostDesk::new(&rt);
    assert!(rt; file_is_read(&rt, &mut desk)?);
    let mut faults = 0u64;
    for name in NAMES {
        faults = faults.wrapping_add(1);
        assert!(rt; is_refused(rt.alloc(), &mut desk, (name, 9), ReadFault::Failed, faults));
    }
    Ok(())
}
