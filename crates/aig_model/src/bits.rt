//! Lists of truth values, 64 to a word.

ghost use Rattle.std.specs.Prelude.{◌≡◌, ◌≢◌, ◌↔◌, ℕ, [], ◌∷◌, ◌++◌, ◌-◌, ◌<◌, ◌≤◌, ◌^◌, length, false, take, drop, replicate, slice_set, slice_index_or, OnOk, OnErr, IfOk, IsTrue};
ghost use Rattle.std.specs.Int.{bit_at};
ghost use Rattle.aig_model.specs.Literal.{number};

use ketch_base::OutOfMemory;
use std::alloc::Global;
use std::marker::Model;

/// A list of truth values, kept 64 to a word.
#[derive(Debug, Drop)]
pub struct Bits {
    words: Vec<u64>,
    len: usize,
}

impl Model for Bits {
    ghost use Rattle.std.specs.Prelude.{List, Bool, ℕ, ◌≤◌, ◌<◌, ◌+◌, ◌*◌, vec_len};
    ghost use Rattle.aig_model.specs.Packed.{unpacked};

    ghost Value = { List Bool };

    ghost view = { λ b. unpacked b.words.items b.len };

    ghost invariant = { λ b. (b.len ≤ 64 * vec_len b.words) × (64 * vec_len b.words < b.len + 64) };
}

/// The word with one of its bits written.
fn with_bit(word: u64, place: u32, bit: bool) -> u64
    requires { place < 64 }
    ensures here { bit_at result place ≡ number bit }
    ensures others { (k : ℕ) → k < 64 → k ≢ place → bit_at result k ≡ bit_at word k }
{
    if bit {
        word | (1u64 << place)
    } else {
        word & !(1u64 << place)
    }
}

impl Bits {
    /// Takes no memory; later calls that grow the list take theirs from `alloc`.
    pub fn new(alloc: Global) -> Bits
        ensures { result ≡ [] }
    {
        Bits {
            words: Vec::new(alloc),
            len: 0,
        }
    }

    /// `len` values, all of them false.
    pub fn all_false(alloc: Global, len: usize) -> Result<Bits, OutOfMemory>
        ensures { IfOk result (λ bits. bits ≡ replicate len false) }
    {
        let words = vec![in alloc; 0u64; len.div_ceil(64)]?;
        Ok(Bits { words, len })
    }

    pub fn len(&self) -> usize
        ensures { result ≡ length self.now }
    {
        self.len
    }

    pub fn is_empty(&self) -> bool
        ensures { IsTrue result ↔ (self.now ≡ []) }
    {
        self.len == 0
    }

    pub fn get(&self, place: usize) -> bool
        requires { place < length self.now }
        ensures { result ≡ slice_index_or self.now place false }
    {
        (self.words[place / 64] >> (place % 64)) & 1 == 1
    }

    pub fn set(&mut self, place: usize, bit: bool)
        requires { place < length self.old }
        ensures { self.new ≡ slice_set self.old place bit }
    {
        let word = self.words[place / 64];
        self.words[place / 64] = with_bit(word, (place % 64) as u32, bit);
    }

    /// Leaves the list as it was where it finds no memory.
    pub fn push(&mut self, bit: bool) -> Result<(), OutOfMemory>
        ensures ok { OnOk result (self.new ≡ self.old ++ bit ∷ []) }
        ensures room { OnOk result (length self.new < 2 ^ 64) }
        ensures err { OnErr result (self.new ≡ self.old) }
    {
        let Some(len) = self.len.checked_add(1) else {
            return Err(OutOfMemory);
        };
        let place = self.len % 64;
        if place == 0 {
            self.words.push(with_bit(0, 0, bit))?;
        } else {
            let word = self.words[self.len / 64];
            self.words[self.len / 64] = with_bit(word, place as u32, bit);
        }
        self.len = len;
        Ok(())
    }

    /// Keeps the first `len` values.
    fn truncate(&mut self, len: usize)
        requires { len ≤ length self.old }
        ensures { self.new ≡ take len self.old }
    {
        self.words.truncate(len.div_ceil(64));
        self.len = len;
    }

    /// Puts all of `more` at the end, or leaves the list as it was where it finds no memory.
    pub fn append(&mut self, more: &Bits) -> Result<(), OutOfMemory>
        ensures ok { OnOk result (self.new ≡ self.old ++ more.now) }
        ensures room { OnOk result (length self.new < 2 ^ 64) }
        ensures err { OnErr result (self.new ≡ self.old) }
    {
        let len = self.len();
        for place in 0..more.len() {
            if self.push(more.get(place)).is_err() {
                self.truncate(len);
                return Err(OutOfMemory);
            }
        }
        Ok(())
    }

    /// The values from `from` up to `to`, as a list of their own.
    pub fn part(&self, alloc: Global, from: usize, to: usize) -> Result<Bits, OutOfMemory>
        requires order { from ≤ to }
        requires within { to ≤ length self.now }
        ensures { IfOk result (λ part. part ≡ take (to - from) (drop from self.now)) }
    {
        let mut part = Bits::new(alloc);
        for place in from..to {
            part.push(self.get(place))?;
        }
        Ok(part)
    }
}
