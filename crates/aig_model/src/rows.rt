//! Rows of truth values of one width.

ghost use Rattle.std.specs.Prelude.{◌≡◌, [], ◌∷◌, ◌++◌, ◌<◌, length, slice_index_or, false, All, OnOk, OnErr, IfOk};

use crate::bits::Bits;
use ketch_base::OutOfMemory;
use std::alloc::Global;
use std::marker::Model;

/// Rows of truth values of one width, without gaps.
#[derive(Debug, Drop)]
pub struct Rows {
    width: u32,
    len: usize,
    bits: Bits,
}

impl Model for Rows {
    ghost use Rattle.std.specs.Prelude.{List, Bool, ℕ, ◌≡◌, ◌*◌, ◌<◌, ◌^◌, length};
    ghost use Rattle.aig_model.specs.Table.{Table, rows_of};

    ghost Value = { Table };

    ghost view = { λ t. record { width = t.width; rows = rows_of t.width t.len t.bits } };

    ghost invariant = { λ t. (length t.bits ≡ t.len * t.width) × (t.len * t.width < 2 ^ 64) };
}

impl Rows {
    /// Takes no memory; later calls of `push` take theirs from `alloc`.
    pub fn new(alloc: Global, width: u32) -> Rows
        ensures width { result.width ≡ width }
        ensures rows { result.rows ≡ [] }
    {
        Rows {
            width,
            len: 0,
            bits: Bits::new(alloc),
        }
    }

    /// Says that every row is as wide as the table.
    pub fn is_well_formed(&self)
        ensures { All (λ row. length row ≡ self.now.width) self.now.rows }
    {
        let _ = &self.width;
    }

    pub fn width(&self) -> u32
        ensures { result ≡ self.now.width }
    {
        self.width
    }

    pub fn len(&self) -> usize
        ensures value { result ≡ length self.now.rows }
        ensures wide { All (λ row. length row ≡ self.now.width) self.now.rows }
    {
        self.len
    }

    pub fn bit(&self, row: usize, column: u32) -> bool
        requires row { row < length self.now.rows }
        requires column { column < self.now.width }
        ensures { result ≡ slice_index_or (slice_index_or self.now.rows row []) column false }
    {
        self.bits.get(row * self.width as usize + column as usize)
    }

    /// The row, as a list of its own.
    pub fn get(&self, alloc: Global, row: usize) -> Result<Bits, OutOfMemory>
        requires { row < length self.now.rows }
        ensures row { IfOk result (λ bits. bits ≡ slice_index_or self.now.rows row []) }
        ensures width { IfOk result (λ bits. length bits ≡ self.now.width) }
    {
        let from = row * self.width as usize;
        let bits = self.bits.part(alloc, from, from + self.width as usize)?;
        Ok(bits)
    }

    /// Leaves the rows as they were where it finds no memory.
    pub fn push(&mut self, row: &Bits) -> Result<(), OutOfMemory>
        requires { length row.now ≡ self.old.width }
        ensures width { self.new.width ≡ self.old.width }
        ensures ok { OnOk result (self.new.rows ≡ self.old.rows ++ row.now ∷ []) }
        ensures err { OnErr result (self.new.rows ≡ self.old.rows) }
    {
        let Some(len) = self.len.checked_add(1) else {
            return Err(OutOfMemory);
        };
        self.bits.append(row)?;
        self.len = len;
        Ok(())
    }
}
