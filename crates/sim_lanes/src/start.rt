//! The lanes of a batch before their first step.

ghost use Rattle.std.specs.Prelude.{◌≡◌, ◌<◌, ℕ, get_or, length, map, option_copied, IfOk, IsTrue, if◌then◌else◌};
ghost use Rattle.sim_batch.specs.Batch.{free_bits, lane_start, reset_state, start_value};
ghost use Rattle.sim_batch.specs.Words.{bit_of_word};
ghost use Rattle.sim_lanes.specs.LaneValues.{lane_values};
ghost use Rattle.sim_lanes.specs.Lanes.{IsFirst};

use crate::lanes::LaneWords;
use aig_model::{Bits, Circuit, Reset, Signals};
use ketch_base::OutOfMemory;
use sim_batch::Seed;
use std::alloc::Global;

/// One bit in every lane.
fn every_lane(bit: bool) -> u64
    ensures { (j : ℕ) → j < 64 → bit_of_word j result ≡ bit }
{
    if bit { u64::MAX } else { 0 }
}

fn start_value(reset: Reset, word: u64) -> u64
    ensures { (j : ℕ) → j < 64 → bit_of_word j result ≡ start_value reset (bit_of_word j word) }
{
    match reset {
        Reset::Zero => every_lane(false),
        Reset::One => every_lane(true),
        Reset::Free => word,
    }
}

fn free_bits(reset: Reset) -> usize
    ensures { result ≡ free_bits reset }
{
    match reset {
        Reset::Zero | Reset::One => 0,
        Reset::Free => 1,
    }
}

/// The word at a place, or 0 past the last one.
fn word_or_zero(words: &[u64], place: usize) -> u64
    ensures { result ≡ get_or words.now place 0 }
{
    if place < words.len() { words[place] } else { 0 }
}

/// A reset state in each lane, whose free latches have these words in turn.
fn reset_state(alloc: Global, circuit: &Circuit, words: &[u64]) -> Result<Vec<u64>, OutOfMemory>
    ensures { IfOk result (λ state. (j : ℕ) → j < 64
        → lane_values j state.items ≡ reset_state (λ k. bit_of_word j (get_or words.now k 0)) 0 circuit.now.latches) }
{
    circuit.is_well_formed();
    let mut state = Vec::new(alloc);
    let mut next = 0;
    for latch in circuit.latches().as_slice() {
        let word = word_or_zero(words, next);
        state.push(start_value(latch.reset, word))?;
        next += free_bits(latch.reset);
    }
    Ok(state)
}

/// The same state in each lane.
fn every_state(alloc: Global, bits: &Bits) -> Result<Vec<u64>, OutOfMemory>
    ensures { IfOk result (λ state. (j : ℕ) → j < 64 → lane_values j state.items ≡ bits.now) }
{
    let mut state = Vec::new(alloc);
    for place in 0..bits.len() {
        let bit = bits.get(place);
        state.push(every_lane(bit))?;
    }
    Ok(state)
}

/// The start of each lane, by the words that the start takes.
fn start_state(
    alloc: Global,
    circuit: &Circuit,
    from: Option<&Seed>,
    words: &[u64],
) -> Result<Vec<u64>, OutOfMemory>
    ensures { IfOk result (λ state. (j : ℕ) → j < 64
        → lane_values j state.items ≡ lane_start circuit.now (option_copied from.entry) (λ k. bit_of_word j (get_or words.now k 0))) }
{
    match from {
        None => {
            let state = reset_state(alloc, circuit, words)?;
            Ok(state)
        }
        Some(seed) => {
            let state = every_state(alloc, seed.state())?;
            Ok(state)
        }
    }
}

/// The 64 lanes before their first step; the words are those that the start takes.
pub(crate) fn first_lanes(
    alloc: Global,
    circuit: &Circuit,
    signals: &Signals,
    from: Option<&Seed>,
    words: &[u64],
) -> Result<LaneWords, OutOfMemory>
    ensures { IfOk result (IsFirst circuit.now signals.now.lits (option_copied from.entry) words.now) }
{
    let state = start_state(alloc, circuit, from, words)?;
    let before = vec![in alloc; 0u64; circuit.latches().len()]?;
    let died = vec![in alloc; 0u32; 64]?;
    let seen = vec![in alloc; 0u64; signals.goals() as usize]?;
    Ok(LaneWords {
        state,
        before,
        live: u64::MAX,
        died,
        seen,
    })
}
