//! Bytes written to memory whole, in part and not at all.

use super::*;
use crate::write::{WriteFault, write_all};
use std::test::Fail;

const FAILED: Result<(), WriteFault> = Err(WriteFault::Failed);

const NOTHING: Result<(), WriteFault> = Err(WriteFault::TookNothing);

/// A text, the room, the most that a write takes, the writes that fail, the answer, and what is taken.
type Row = (
    &'static str,
    usize,
    usize,
    &'static [u64],
    Result<(), WriteFault>,
    &'static str,
);

const ROWS: [Row; 8] = [
    ("report", 6, 6, &[], Ok(()), "report"),
    ("report", 9, 4, &[], Ok(()), "report"),
    ("report", 9, 1, &[7], Ok(()), "report"),
    ("report", 5, 3, &[], NOTHING, "repor"),
    ("report", 9, 0, &[], NOTHING, ""),
    ("report", 9, 4, &[8, 2], FAILED, "repo"),
    ("report", 9, 4, &[1], FAILED, ""),
    ("", 0, 0, &[1], Ok(()), ""),
];

fn is_met(rt: &HostRuntime, row: Row) -> Result<bool, Fail> {
    let (text, room, most, fails, wanted, taken) = row;
    let mut sink = MemorySink::new(rt.alloc(), room, most, fails.to_vec(rt.alloc())?)?;
    let found = write_all(&mut sink, text.as_bytes());
    Ok(found == wanted && sink.taken() == taken.as_bytes())
}

#[test]
fn writes_bytes(rt: HostRuntime) -> Result<(), Fail> {
    for row in ROWS {
        assert!(rt; is_met(&rt, row)?, "{row:?}");
    }
    Ok(())
}
