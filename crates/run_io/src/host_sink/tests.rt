//! Bytes written to a real file, and to one that takes none.

use super::*;
use crate::write::{WriteFault, write_all};
use std::fs;
use std::fs::File;
use std::test::Fail;

const PATH: &str = "run_io_host_sink.txt";

/// Whether a write has this answer, and leaves these counts of faults and of writes that took nothing.
fn answers<W: Write>(
    sink: &mut HostSink<W>,
    bytes: &[u8],
    wanted: Result<(), WriteFault>,
    counts: (u64, u64),
) -> bool {
    let found = write_all(sink, bytes);
    found == wanted && (sink.faults, sink.idle) == counts
}

fn new_file_takes_all(rt: &HostRuntime) -> Result<bool, Fail> {
    let mut sink = HostSink::new(File::create(rt, PATH)?);
    let first = answers(&mut sink, b"a report", Ok(()), (0, 0));
    let second = answers(&mut sink, b", whole", Ok(()), (0, 0));
    Ok(first && second)
}

fn file_holds(rt: &HostRuntime, wanted: &str) -> Result<bool, Fail> {
    let text = fs::read_to_string(rt, PATH)?;
    Ok(text.as_str() == wanted)
}

fn file_to_be_read_fails(rt: &HostRuntime) -> Result<bool, Fail> {
    let mut sink = HostSink::new(File::open(rt, PATH)?);
    Ok(answers(&mut sink, b"a report", Err(WriteFault::Failed), (1, 0)))
}

fn short_room_takes_nothing() -> bool {
    let mut room = [0u8; 3];
    let mut sink = HostSink::new(room.as_mut_slice());
    answers(&mut sink, b"a report", Err(WriteFault::TookNothing), (0, 1))
}

#[test]
fn writes_a_file(rt: HostRuntime) -> Result<(), Fail> {
    assert!(rt; new_file_takes_all(&rt)?);
    assert!(rt; file_holds(&rt, "a report, whole")?);
    assert!(rt; file_to_be_read_fails(&rt)?);
    assert!(rt; short_room_takes_nothing());
    fs::remove_file(&rt, PATH)?;
    Ok(())
}
