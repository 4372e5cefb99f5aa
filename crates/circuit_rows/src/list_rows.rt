//! Lists of truth values past a word, rows, and goals.

use aig_model::{Bits, Goals, Rows};
use ketch_base::OutOfMemory;
use std::alloc::Global;
use std::test::Fail;

fn push_twice(bits: &mut Bits) -> Result<(), OutOfMemory> {
    bits.push(true)?;
    bits.push(true)
}

/// Puts the last three of 65 values at the end once more.
fn append_tail(alloc: Global, bits: &mut Bits) -> Result<bool, OutOfMemory> {
    if bits.len() != 65 {
        return Ok(false);
    }
    let tail = bits.part(alloc, 62, 65)?;
    Ok(bits.append(&tail).is_ok())
}

fn ends(bits: &Bits) -> bool {
    bits.len() == 68 && bits.get(64) && !bits.get(65) && bits.get(67)
}

#[test]
fn bits_grow_past_a_word(rt: HostRuntime) -> Result<(), Fail> {
    let mut bits = Bits::all_false(rt.alloc(), 63)?;
    assert!(rt; push_twice(&mut bits).is_ok());
    assert!(rt; append_tail(rt.alloc(), &mut bits) == Ok(true));
    assert!(rt; ends(&bits));
    Ok(())
}

fn push_row(alloc: Global, rows: &mut Rows) -> Result<bool, OutOfMemory> {
    let row = Bits::all_false(alloc, 3)?;
    Ok(row.len() == rows.width() as usize && rows.push(&row).is_ok())
}

fn first_row_has(alloc: Global, rows: &Rows, width: usize) -> bool {
    match rows.len() {
        1 => rows.get(alloc, 0).is_ok_and(|row| row.len() == width),
        _ => false,
    }
}

#[test]
fn rows_grow(rt: HostRuntime) {
    let mut rows = Rows::new(rt.alloc(), 3);
    assert!(rt; push_row(rt.alloc(), &mut rows) == Ok(true));
    assert!(rt; first_row_has(rt.alloc(), &rows, 3));
}

#[test]
fn goals_grow(rt: HostRuntime) -> Result<(), Fail> {
    let mut goals = Goals::new(rt.alloc());
    goals.push(3)?;
    assert!(rt; goals.push(8).is_ok());
    assert!(rt; goals.len() == 2);
    Ok(())
}
