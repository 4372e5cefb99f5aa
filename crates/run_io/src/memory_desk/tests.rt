//! Files in memory, read whole, in part and not at all.

ghost use Rattle.std.specs.Prelude.{◌≡◌, ◌+◌, ◌≤◌, ◌^◌, IsSome};

use super::*;
use crate::read::{ReadFault, read_file};
use std::test::Fail;

fn file(alloc: Global, name: &[u8], bytes: &[u8]) -> Result<FileText, OutOfMemory> {
    let name = name.to_vec(alloc)?;
    let bytes = bytes.to_vec(alloc)?;
    Ok(FileText { name, bytes })
}

fn add(
    alloc: Global,
    files: &mut Vec<FileText>,
    name: &[u8],
    bytes: &[u8],
) -> Result<(), OutOfMemory> {
    files.push(file(alloc, name, bytes)?)?;
    Ok(())
}

/// Two files of one name, one of several pieces, and an empty one.
fn desk_of(alloc: Global, long: &[u8], fails: &[u64]) -> Result<MemoryDesk, OutOfMemory> {
    let mut files = Vec::new(alloc);
    add(alloc, &mut files, b"short", b"one")?;
    add(alloc, &mut files, b"short", b"another")?;
    add(alloc, &mut files, b"long", long)?;
    add(alloc, &mut files, b"empty", b"")?;
    MemoryDesk::new(alloc, files, fails.to_vec(alloc)?)
}

const FAILED: Result<&'static [u8], ReadFault> = Err(ReadFault::Failed);

const TOO_LONG: Result<&'static [u8], ReadFault> = Err(ReadFault::TooLong);

const LONG: &[u8] = &[7; 10000];

/// A name, the limit, the calls that fail, and the answer.
type Row = (
    &'static str,
    u16,
    &'static [u64],
    Result<&'static [u8], ReadFault>,
);

const ROWS: [Row; 12] = [
    ("short", 3, &[], Ok(b"one")),
    ("short", 2, &[], TOO_LONG),
    ("long", 10000, &[], Ok(LONG)),
    ("long", 9999, &[], TOO_LONG),
    ("long", 0, &[], TOO_LONG),
    ("empty", 0, &[], Ok(b"")),
    ("absent", 9, &[], FAILED),
    ("short", 3, &[1], FAILED),
    ("short", 3, &[9, 2], FAILED),
    ("short", 3, &[3, 3], FAILED),
    ("short", 3, &[4, 0], Ok(b"one")),
    ("long", 10000, &[4], FAILED),
];

fn is_found(found: &Result<Vec<u8>, ReadFault>, wanted: Result<&[u8], ReadFault>) -> bool {
    match (found, wanted) {
        (Ok(bytes), Ok(text)) => bytes.as_slice() == text,
        (Err(fault), Err(cause)) => *fault == cause,
        _ => false,
    }
}

fn is_met(alloc: Global, row: Row) -> Result<bool, OutOfMemory> {
    let (name, limit, fails, wanted) = row;
    let mut desk = desk_of(alloc, LONG, fails)?;
    let found = read_file(alloc, &mut desk, name.as_bytes(), u64::from(limit));
    Ok(is_found(&found, wanted))
}

#[test]
fn reads_files(rt: HostRuntime) -> Result<(), Fail> {
    for row in ROWS {
        let (name, limit, _, _) = row;
        assert!(rt; is_met(rt.alloc(), row)?, "{name} within {limit}");
    }
    Ok(())
}

/// Whether up to two bytes are given, or a failure, as wanted.
fn gives(desk: &mut MemoryDesk, wanted: Result<&[u8], Failed>) -> bool
    requires started { IsSome desk.old.started }
    requires countable { desk.old.given ≤ 2 ^ 40 }
    ensures started { desk.new.started ≡ desk.old.started }
    ensures countable { desk.new.given ≤ desk.old.given + 2 }
{
    let mut piece = [0; 2];
    match (desk.read(&mut piece), wanted) {
        (Ok(count), Ok(bytes)) => &piece[..count] == bytes,
        (Err(_), Err(_)) => true,
        _ => false,
    }
}

#[test]
fn gives_what_fits(rt: HostRuntime) -> Result<(), Fail> {
    let mut desk = desk_of(rt.alloc(), b"", &[3])?;
    desk.start_file(b"short").expect(&rt, "a file of this name");
    assert!(rt; gives(&mut desk, Ok(b"on")));
    assert!(rt; gives(&mut desk, Err(Failed)));
    assert!(rt; gives(&mut desk, Ok(b"e")));
    assert!(rt; gives(&mut desk, Ok(b"")));
    assert!(rt; desk.faults == 1);
    Ok(())
}
