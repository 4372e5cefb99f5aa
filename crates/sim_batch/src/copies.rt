//! Copies of truth values and of rows.

ghost use Rattle.std.specs.Prelude.{◌≡◌, ◌++◌, ◌≤◌, length, take, IfOk, OnOk};

use aig_model::{Bits, Rows};
use ketch_base::OutOfMemory;
use std::alloc::Global;

pub(crate) fn copy_bits(alloc: Global, bits: &Bits) -> Result<Bits, OutOfMemory>
    ensures { IfOk result (λ copy. copy ≡ bits.now) }
{
    let copy = bits.part(alloc, 0, bits.len())?;
    Ok(copy)
}

/// Puts the first `count` rows of `more` at the end.
pub(crate) fn append_rows(
    alloc: Global,
    rows: &mut Rows,
    more: &Rows,
    count: usize,
) -> Result<(), OutOfMemory>
    requires width { more.now.width ≡ rows.old.width }
    requires count { count ≤ length more.now.rows }
    ensures width { rows.new.width ≡ rows.old.width }
    ensures rows { OnOk result (rows.new.rows ≡ rows.old.rows ++ take count more.now.rows) }
{
    for place in 0..count {
        let row = more.get(alloc, place)?;
        rows.push(&row)?;
    }
    Ok(())
}
