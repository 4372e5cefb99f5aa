//! Where a lane starts, the rows that it is given, and its trace.

ghost use Rattle.std.specs.Prelude.{◌≡◌, ◌<◌, ◌+◌, length, map, get_or, option_copied, IfOk, OnOk};
ghost use Rattle.std.specs.List.{range_with_len};
ghost use Rattle.sim_batch.specs.Batch.{BelongsTo, IsLaneTrace, lane_start, lanes_of, row_of_bits, start_bits};
ghost use Rattle.sim_batch.specs.Words.{after_words, bit_of_word, word_at};

use crate::copies::copy_bits;
use crate::seed::{Seed, are_seeds};
use crate::words::{batch_generator, draw, free_count, lane_row, reset_state};
use aig_model::{Bits, Circuit, Rows, Trace};
use ketch_base::OutOfMemory;
use rand_xoshiro::Xoshiro256PlusPlus;
use sim_walk::Options;
use std::alloc::Global;

/// The number of words that a batch draws for the start of its lanes.
fn start_bits(circuit: &Circuit, from: Option<&Seed>) -> usize
    ensures { result ≡ start_bits circuit.now (option_copied from.entry) }
{
    match from {
        None => free_count(circuit),
        Some(_) => 0,
    }
}

/// The words that the start of the lanes takes.
pub fn start_words(
    alloc: Global,
    circuit: &Circuit,
    from: Option<&Seed>,
    generator: &mut Xoshiro256PlusPlus,
) -> Result<Vec<u64>, OutOfMemory>
    ensures words { IfOk result (λ words. words.items ≡ map (word_at generator.old) (range_with_len 0 (start_bits circuit.now (option_copied from.entry)))) }
    ensures generator { OnOk result (generator.new ≡ after_words generator.old (start_bits circuit.now (option_copied from.entry))) }
{
    let mut words = vec![in alloc; 0u64; start_bits(circuit, from)]?;
    draw(generator, &mut words);
    Ok(words)
}

/// The start of a lane, by the words that the start takes.
pub(crate) fn lane_start(
    alloc: Global,
    circuit: &Circuit,
    from: Option<&Seed>,
    words: &[u64],
    lane: u32,
) -> Result<Bits, OutOfMemory>
    requires { lane < 64 }
    ensures { IfOk result (λ start. start ≡ lane_start circuit.now (option_copied from.entry) (λ k. bit_of_word lane (get_or words.now k 0))) }
{
    match from {
        None => {
            let start = reset_state(alloc, circuit, words, lane)?;
            Ok(start)
        }
        Some(seed) => {
            let start = copy_bits(alloc, seed.state())?;
            Ok(start)
        }
    }
}

/// The rows that a lane is given at the next `count` steps.
pub(crate) fn lane_rows(
    alloc: Global,
    circuit: &Circuit,
    generator: &mut Xoshiro256PlusPlus,
    lane: u32,
    count: usize,
) -> Result<Rows, OutOfMemory>
    requires { lane < 64 }
    ensures width { IfOk result (λ rows. rows.width ≡ length circuit.now.inputs) }
    ensures rows { IfOk result (λ rows. rows.rows ≡
        map (row_of_bits (λ k. bit_of_word lane (word_at generator.old k)) 0 (length circuit.now.inputs)) (range_with_len 0 count)) }
{
    circuit.is_well_formed();
    let inputs = circuit.inputs().len();
    let mut words = vec![in alloc; 0u64; inputs]?;
    let mut rows = Rows::new(alloc, inputs as u32);
    for _step in 0..count {
        draw(generator, &mut words);
        let row = lane_row(alloc, words.as_slice(), lane)?;
        rows.push(&row)?;
    }
    Ok(rows)
}

/// A lane's trace up to a step, whole from reset.
pub(crate) fn lane_trace(
    alloc: Global,
    circuit: &Circuit,
    options: &Options,
    from: Option<&Seed>,
    batch: u32,
    lane: u32,
    step: u32,
) -> Result<Trace, OutOfMemory>
    requires seed { BelongsTo circuit.now (option_copied from) }
    requires lane { lane < 64 }
    ensures { IfOk result (IsLaneTrace circuit.now (option_copied from.entry) (lanes_of circuit.now options.now.seed batch (option_copied from.entry)) lane step) }
{
    are_seeds(from);
    let mut generator = batch_generator(options.seed, batch);
    let words = start_words(alloc, circuit, from, &mut generator)?;
    let rows = lane_rows(alloc, circuit, &mut generator, lane, step as usize + 1)?;
    match from {
        None => {
            let start = reset_state(alloc, circuit, words.as_slice(), lane)?;
            Ok(Trace { start, rows })
        }
        Some(seed) => {
            let trace = seed.extend(alloc, &rows)?;
            Ok(trace)
        }
    }
}
