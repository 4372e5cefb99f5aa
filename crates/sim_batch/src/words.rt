//! Random words, and the bits of one lane in them.

ghost use Rattle.std.specs.Prelude.{◌≡◌, ◌<◌, map, get_or, length, IfOk};
ghost use Rattle.std.specs.List.{range_with_len};
ghost use Rattle.sim_batch.specs.Batch.{free_bits, free_count, reset_state, start_value};
ghost use Rattle.sim_batch.specs.Words.{after_words, batch_generator, bit_of_word, word_at};

use aig_model::{Bits, Circuit, Reset};
use ketch_base::OutOfMemory;
use rand_core::SeedableRng;
use rand_core::utils::NextWord;
use rand_xoshiro::Xoshiro256PlusPlus;
use std::alloc::Global;

pub fn batch_generator(seed: u64, batch: u32) -> Xoshiro256PlusPlus
    ensures { result ≡ batch_generator seed batch }
{
    Xoshiro256PlusPlus::seed_from_u64(seed.wrapping_add(batch as u64))
}

/// Writes the generator's next words over all of `words`.
pub fn draw(generator: &mut Xoshiro256PlusPlus, words: &mut Vec<u64>)
    ensures words { words.new.items ≡ map (word_at generator.old) (range_with_len 0 (length words.old.items)) }
    ensures generator { generator.new ≡ after_words generator.old (length words.old.items) }
{
    for place in 0..words.len() {
        words[place] = generator.next_word();
    }
}

/// A lane's bit of a word.
pub fn lane_bit(word: u64, lane: u32) -> bool
    requires { lane < 64 }
    ensures { result ≡ bit_of_word lane word }
{
    (word >> lane) & 1 == 1
}

/// A lane's bit of one of these words, or 0 past the last one.
fn lane_bit_of(words: &[u64], place: usize, lane: u32) -> bool
    requires { lane < 64 }
    ensures { result ≡ bit_of_word lane (get_or words.now place 0) }
{
    if place < words.len() {
        lane_bit(words[place], lane)
    } else {
        false
    }
}

/// A lane's bits of these words.
pub fn lane_row(alloc: Global, words: &[u64], lane: u32) -> Result<Bits, OutOfMemory>
    requires { lane < 64 }
    ensures { IfOk result (λ row. row ≡ map (bit_of_word lane) words.now) }
{
    let mut row = Bits::new(alloc);
    for word in words {
        row.push(lane_bit(*word, lane))?;
    }
    Ok(row)
}

fn start_value(reset: Reset, bit: bool) -> bool
    ensures { result ≡ start_value reset bit }
{
    match reset {
        Reset::Zero => false,
        Reset::One => true,
        Reset::Free => bit,
    }
}

fn free_bits(reset: Reset) -> usize
    ensures { result ≡ free_bits reset }
{
    match reset {
        Reset::Zero | Reset::One => 0,
        Reset::Free => 1,
    }
}

/// The number of latches that are free at reset.
pub(crate) fn free_count(circuit: &Circuit) -> usize
    ensures { result ≡ free_count circuit.now.latches }
{
    circuit.is_well_formed();
    let mut count = 0;
    for latch in circuit.latches().as_slice() {
        count += free_bits(latch.reset);
    }
    count
}

/// A lane's reset state, whose free latches have the lane's bits of these words in turn.
pub(crate) fn reset_state(
    alloc: Global,
    circuit: &Circuit,
    words: &[u64],
    lane: u32,
) -> Result<Bits, OutOfMemory>
    requires { lane < 64 }
    ensures { IfOk result (λ state. state ≡ reset_state (λ k. bit_of_word lane (get_or words.now k 0)) 0 circuit.now.latches) }
{
    circuit.is_well_formed();
    let mut state = Bits::new(alloc);
    let mut next = 0;
    for latch in circuit.latches().as_slice() {
        let bit = lane_bit_of(words, next, lane);
        state.push(start_value(latch.reset, bit))?;
        next += free_bits(latch.reset);
    }
    Ok(state)
}
