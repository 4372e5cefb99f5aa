//! A text as it is written: words with one space between them, line by line.

ghost use Rattle.std.specs.Prelude.{◌≡◌, [], ◌∷◌, ◌++◌, map, decimal, OnOk};
ghost use Rattle.std.specs.Fmt.{signed_decimal};
ghost use Rattle.wit_text.specs.WitnessText.{digit};
ghost use Rattle.report_text.specs.Text.{line, text, number_words, bits_words, witness_lines, proof_lines};

use aig_model::{Bits, Rows, Trace};
use ketch_base::OutOfMemory;
use lrat_text::{Proof, write_lrat};
use std::alloc::Global;
use std::marker::Model;
use text_words::{push_integer, push_natural};
use wit_text::push_witness;

/// The bytes written so far. What a call that finds no memory leaves is a part of the text.
#[derive(Drop)]
pub(crate) struct TextWriter {
    bytes: Vec<u8>,
}

impl Model for TextWriter {
    ghost use Rattle.std.specs.Prelude.{List, ℕ};

    ghost Value = { List ℕ };

    ghost view = { λ w. w.bytes.items };
}

impl TextWriter {
    pub fn new(alloc: Global) -> TextWriter
        ensures { result ≡ [] }
    {
        TextWriter {
            bytes: Vec::new(alloc),
        }
    }

    pub fn into_bytes(self) -> Vec<u8>
        ensures { result.items ≡ self }
    {
        self.bytes
    }

    /// The first word of a line, or a part of a word.
    pub fn word(&mut self, word: &str) -> Result<(), OutOfMemory>
        ensures { OnOk result (self.new ≡ self.old ++ word.now) }
    {
        self.bytes.extend_from_slice(word.as_bytes())?;
        Ok(())
    }

    pub fn number(&mut self, n: u64) -> Result<(), OutOfMemory>
        ensures { OnOk result (self.new ≡ self.old ++ decimal n) }
    {
        push_natural(&mut self.bytes, n)?;
        Ok(())
    }

    /// An integer, and a space.
    pub fn integer(&mut self, n: i64) -> Result<(), OutOfMemory>
        ensures { OnOk result (self.new ≡ self.old ++ (signed_decimal n ++ 32 ∷ [])) }
    {
        push_integer(&mut self.bytes, n)?;
        self.bytes.push(b' ')?;
        Ok(())
    }

    fn bit(&mut self, bit: bool) -> Result<(), OutOfMemory>
        ensures { OnOk result (self.new ≡ self.old ++ digit bit ∷ []) }
    {
        self.bytes.push(if bit { b'1' } else { b'0' })?;
        Ok(())
    }

    /// A line with a character for each value.
    pub fn bits(&mut self, bits: &Bits) -> Result<(), OutOfMemory>
        ensures { OnOk result (self.new ≡ self.old ++ line (bits_words bits.now)) }
    {
        for place in 0..bits.len() {
            self.bit(bits.get(place))?;
        }
        self.end_line()?;
        Ok(())
    }

    pub fn rows(&mut self, alloc: Global, rows: &Rows) -> Result<(), OutOfMemory>
        ensures { OnOk result (self.new ≡ self.old ++ text (map bits_words rows.now.rows)) }
    {
        for row in 0..rows.len() {
            let bits = rows.get(alloc, row)?;
            self.bits(&bits)?;
        }
        Ok(())
    }

    /// All lines of a witness.
    pub fn witness(&mut self, property: u64, trace: &Trace) -> Result<(), OutOfMemory>
        ensures { OnOk result (self.new ≡ self.old ++ text (witness_lines property trace.now)) }
    {
        push_witness(&mut self.bytes, property, trace)?;
        Ok(())
    }

    /// A word that isn't the first of its line.
    pub fn next_word(&mut self, word: &str) -> Result<(), OutOfMemory>
        ensures { OnOk result (self.new ≡ self.old ++ 32 ∷ word.now) }
    {
        self.bytes.push(b' ')?;
        self.word(word)?;
        Ok(())
    }

    pub fn next_number(&mut self, n: u64) -> Result<(), OutOfMemory>
        ensures { OnOk result (self.new ≡ self.old ++ 32 ∷ decimal n) }
    {
        self.bytes.push(b' ')?;
        self.number(n)?;
        Ok(())
    }

    pub fn end_line(&mut self) -> Result<(), OutOfMemory>
        ensures { OnOk result (self.new ≡ self.old ++ 10 ∷ []) }
    {
        self.bytes.push(b'\n')?;
        Ok(())
    }

    /// A line of a name and numbers.
    pub fn number_line(&mut self, name: &str, numbers: &[u64]) -> Result<(), OutOfMemory>
        ensures { OnOk result (self.new ≡ self.old ++ line (number_words name.now numbers.now)) }
    {
        self.word(name)?;
        for n in numbers {
            self.next_number(*n)?;
        }
        self.end_line()?;
        Ok(())
    }

    /// The count of a proof's steps, and a line for each of them.
    pub fn proof(&mut self, alloc: Global, proof: &Proof) -> Result<(), OutOfMemory>
        ensures { OnOk result (self.new ≡ self.old ++ text (proof_lines proof.now)) }
    {
        self.number_line("proof", &[proof.len() as u64])?;
        let steps = write_lrat(alloc, proof)?;
        self.bytes.extend_from_slice(&steps)?;
        Ok(())
    }
}
