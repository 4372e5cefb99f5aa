//! Batches whose visits and seeds were found by a program of another kind.

ghost use Rattle.std.specs.Prelude.{◌≡◌, ◌<◌, option_copied, IfOk, IfSome};
ghost use Rattle.sim_batch.specs.Batch.{BelongsTo, lanes_of};
ghost use Rattle.sim_batch.specs.SeedOf.{IsBatch, IsBatchVisit};

use aig_ascii::read_aag;
use aig_eval::replay;
use aig_model::{Bits, Circuit, Rows, Signals};
use ketch_base::OutOfMemory;
use signal_list::read_signals;
use sim_batch::{BatchEnd, Seed, visit_trace, walk_batch};
use sim_lanes::lane_batch;
use sim_walk::{Options, Visit};
use std::alloc::Global;
use std::test::Fail;
use text_words::lines_at_most_bytes;

/// The latch 6 toggles where the input 2 is true, else it keeps its value; where the input 4 is false it is set back.
const ENABLED: &[u8] = b"aag 7 2 1 0 4\n2\n4\n6 8\n12 2 6\n14 3 7\n10 13 15\n8 4 10\n";

/// A latch that keeps its free start.
const KEPT: &[u8] = b"aag 1 0 1 0 0\n2 2 2\n";

/// The same, and an input that must be true.
const HELD: &[u8] = b"aag 2 1 1 0 0 0 1\n2\n4 4 4\n2\n";

/// A constraint that is never true.
const NEVER: &[u8] = b"aag 1 0 1 0 0 0 1\n2 3\n0\n";

/// A chain of six latches, which fill one after another.
const CHAIN: &[u8] = b"aag 6 0 6 0 0\n2 1\n4 2\n6 4\n8 6\n10 8\n12 10\n";

/// A start, rows and a state, a digit a bit.
#[derive(Clone, Copy)]
struct Way {
    start: &'static [u8],
    rows: &'static [&'static [u8]],
    state: &'static [u8],
}

#[derive(Clone, Copy)]
struct Row {
    circuit: &'static [u8],
    signals: &'static [u8],
    seed: u64,
    batch: u32,
    length: u32,
    stall: u32,
    visits: &'static [Visit],
    way: Option<Way>,
}

/// The latch that keeps its start, from the seed 1: lane j starts at bit j of the first word, 0xcfc5d07f6f03c29b.
const PLAIN: Row = Row {
    circuit: KEPT,
    signals: b"l0",
    seed: 1,
    batch: 0,
    length: 3,
    stall: 100,
    visits: &[
        Visit {
            goal: 1,
            lane: 0,
            step: 0,
        },
        Visit {
            goal: 0,
            lane: 2,
            step: 0,
        },
    ],
    way: Some(Way {
        start: b"1",
        rows: &[b"", b""],
        state: b"1",
    }),
};

const ROWS: [Row; 8] = [
    PLAIN,
    Row {
        batch: 1,
        visits: &[
            Visit {
                goal: 0,
                lane: 0,
                step: 0,
            },
            Visit {
                goal: 1,
                lane: 1,
                step: 0,
            },
        ],
        way: Some(Way {
            start: b"0",
            rows: &[b"", b""],
            state: b"0",
        }),
        ..PLAIN
    },
    // The sum of seed and batch wraps.
    Row {
        seed: 0xffff_ffff_ffff_ffff,
        batch: 1,
        length: 1,
        visits: &[
            Visit {
                goal: 1,
                lane: 0,
                step: 0,
            },
            Visit {
                goal: 0,
                lane: 5,
                step: 0,
            },
        ],
        way: Some(Way {
            start: b"1",
            rows: &[],
            state: b"1",
        }),
        ..PLAIN
    },
    Row {
        circuit: NEVER,
        visits: &[],
        way: None,
        ..PLAIN
    },
    Row {
        circuit: CHAIN,
        signals: b"l1\nl3\nl5",
        length: 2,
        visits: &[Visit {
            goal: 0,
            lane: 0,
            step: 0,
        }],
        way: Some(Way {
            start: b"000000",
            rows: &[b""],
            state: b"100000",
        }),
        ..PLAIN
    },
    // All lanes die before the length is reached.
    Row {
        circuit: HELD,
        length: 9,
        stall: 9,
        visits: &[
            Visit {
                goal: 1,
                lane: 0,
                step: 0,
            },
            Visit {
                goal: 0,
                lane: 2,
                step: 0,
            },
        ],
        way: Some(Way {
            start: b"1",
            rows: &[],
            state: b"1",
        }),
        ..PLAIN
    },
    Row {
        circuit: HELD,
        batch: 2,
        length: 9,
        stall: 9,
        visits: &[
            Visit {
                goal: 0,
                lane: 2,
                step: 0,
            },
            Visit {
                goal: 1,
                lane: 5,
                step: 0,
            },
        ],
        way: Some(Way {
            start: b"0",
            rows: &[b"1", b"1", b"1"],
            state: b"0",
        }),
        ..PLAIN
    },
    // It stalls after step 3.
    Row {
        circuit: ENABLED,
        signals: b"l0\ni0",
        length: 5,
        stall: 2,
        visits: &[
            Visit {
                goal: 2,
                lane: 0,
                step: 0,
            },
            Visit {
                goal: 0,
                lane: 2,
                step: 0,
            },
            Visit {
                goal: 1,
                lane: 0,
                step: 1,
            },
            Visit {
                goal: 3,
                lane: 14,
                step: 1,
            },
        ],
        way: Some(Way {
            start: b"0",
            rows: &[b"11", b"01", b"10"],
            state: b"0",
        }),
        ..PLAIN
    },
];

/// What batch 5 visits from the seed of the last row's batch.
const AGAIN: Row = Row {
    circuit: ENABLED,
    signals: b"l0\ni0",
    batch: 5,
    length: 5,
    stall: 2,
    visits: &[
        Visit {
            goal: 0,
            lane: 0,
            step: 0,
        },
        Visit {
            goal: 2,
            lane: 1,
            step: 0,
        },
        Visit {
            goal: 1,
            lane: 1,
            step: 1,
        },
        Visit {
            goal: 3,
            lane: 3,
            step: 1,
        },
    ],
    way: Some(Way {
        start: b"0",
        rows: &[b"11", b"01", b"10", b"00", b"11", b"01"],
        state: b"1",
    }),
    ..PLAIN
};

fn options(row: &Row) -> Options
    ensures seed { result.seed ≡ row.now.seed }
    ensures length { result.length ≡ row.now.length }
    ensures stall { result.stall ≡ row.now.stall }
{
    Options {
        depth: 0,
        batches: 1,
        length: row.length,
        stall: row.stall,
        hop: 0,
        seed: row.seed,
        lemmas: 1,
        strength: 0,
        rounds: 0,
        proofs: false,
    }
}

fn signals(alloc: Global, text: &[u8], circuit: &Circuit) -> Option<Signals>
    ensures { IfSome result (λ signals. signals.circuit ≡ circuit.now) }
{
    if text.len() >= 10 {
        return None;
    }
    lines_at_most_bytes(text);
    read_signals(alloc, text, circuit).ok()
}

fn are_bits(bits: &Bits, digits: &[u8]) -> bool {
    if bits.len() != digits.len() {
        return false;
    }
    for place in 0..bits.len() {
        if bits.get(place) != (digits[place] == b'1') {
            return false;
        }
    }
    true
}

fn are_rows(alloc: Global, rows: &Rows, wanted: &[&[u8]]) -> bool {
    if rows.len() != wanted.len() {
        return false;
    }
    for place in 0..rows.len() {
        match rows.get(alloc, place) {
            Ok(row) => {
                if !are_bits(&row, wanted[place]) {
                    return false;
                }
            }
            Err(_) => return false,
        }
    }
    true
}

fn is_way(alloc: Global, seed: &Option<Seed>, way: &Option<Way>) -> bool {
    match (seed, way) {
        (Some(seed), Some(way)) => {
            are_bits(seed.start(), way.start)
                && are_rows(alloc, seed.rows(), way.rows)
                && are_bits(seed.state(), way.state)
        }
        (None, None) => true,
        _ => false,
    }
}

/// Whether the trace of a visit replays to its goal.
fn shows_visit(
    alloc: Global,
    circuit: &Circuit,
    signals: &Signals,
    options: &Options,
    from: Option<&Seed>,
    batch: u32,
    visit: &Visit,
) -> bool
    requires signals { signals.now.circuit ≡ circuit.now }
    requires seed { BelongsTo circuit.now (option_copied from) }
    requires visit { IsBatchVisit circuit.now signals.now.lits (lanes_of circuit.now options.now.seed batch (option_copied from))
        options.now.length options.now.stall visit.now }
{
    match visit_trace(alloc, circuit, signals, options, from, batch, visit) {
        Ok(trace) => {
            trace.rows.len() < 100 && replay(alloc, circuit, signals, &trace) == Ok(visit.goal)
        }
        Err(_) => false,
    }
}

/// Whether the traces of all visits of a batch replay to their goals.
fn shows_visits(
    alloc: Global,
    circuit: &Circuit,
    signals: &Signals,
    options: &Options,
    from: Option<&Seed>,
    batch: u32,
    end: &BatchEnd,
) -> bool
    requires signals { signals.now.circuit ≡ circuit.now }
    requires seed { BelongsTo circuit.now (option_copied from) }
    requires batch { IsBatch circuit.now signals.now.lits (option_copied from) (lanes_of circuit.now options.now.seed batch (option_copied from))
        options.now.length options.now.stall end.now.visits end.now.seed }
{
    for place in 0..end.visits.len() {
        let visit = end.visits.get(place);
        if !shows_visit(alloc, circuit, signals, options, from, batch, visit) {
            return false;
        }
    }
    true
}

/// Whether a batch ended as its row says, and each of its visits has its trace.
fn is_end(
    alloc: Global,
    circuit: &Circuit,
    signals: &Signals,
    from: Option<&Seed>,
    row: &Row,
    end: &BatchEnd,
) -> bool
    requires signals { signals.now.circuit ≡ circuit.now }
    requires seed { BelongsTo circuit.now (option_copied from) }
    requires batch { IsBatch circuit.now signals.now.lits (option_copied from) (lanes_of circuit.now row.now.seed row.now.batch (option_copied from))
        row.now.length row.now.stall end.now.visits end.now.seed }
{
    end.visits.as_slice() == row.visits
        && is_way(alloc, &end.seed, &row.way)
        && shows_visits(alloc, circuit, signals, &options(row), from, row.batch, end)
}

/// Whether a batch that walks lane by lane is as its row says.
fn is_row_by_lane(
    alloc: Global,
    circuit: &Circuit,
    signals: &Signals,
    from: Option<&Seed>,
    row: &Row,
) -> bool
    requires signals { signals.now.circuit ≡ circuit.now }
    requires seed { BelongsTo circuit.now (option_copied from) }
    requires length { 0 < row.now.length }
{
    match walk_batch(alloc, circuit, signals, &options(row), from, row.batch) {
        Ok(end) => is_end(alloc, circuit, signals, from, row, &end),
        Err(_) => false,
    }
}

/// Whether a batch that walks 64 lanes to a word is as its row says.
fn is_row_by_word(
    alloc: Global,
    circuit: &Circuit,
    signals: &Signals,
    from: Option<&Seed>,
    row: &Row,
) -> bool
    requires signals { signals.now.circuit ≡ circuit.now }
    requires seed { BelongsTo circuit.now (option_copied from) }
    requires length { 0 < row.now.length }
{
    match lane_batch(alloc, circuit, signals, &options(row), from, row.batch) {
        Ok(end) => is_end(alloc, circuit, signals, from, row, &end),
        Err(_) => false,
    }
}

/// Whether both ways to walk a batch are as its row says.
fn is_row(
    alloc: Global,
    circuit: &Circuit,
    signals: &Signals,
    from: Option<&Seed>,
    row: &Row,
) -> bool
    requires signals { signals.now.circuit ≡ circuit.now }
    requires seed { BelongsTo circuit.now (option_copied from) }
    requires length { 0 < row.now.length }
{
    is_row_by_lane(alloc, circuit, signals, from, row)
        && is_row_by_word(alloc, circuit, signals, from, row)
}

#[test]
fn batches_from_reset(rt: HostRuntime) -> Result<(), Fail> {
    for (place, row) in ROWS.iter().enumerate() {
        let circuit = read_aag(rt.alloc(), row.circuit)?;
        let signals = signals(rt.alloc(), row.signals, &circuit).expect(&rt, "signals");
        assert!(rt;
            row.length > 0 && is_row(rt.alloc(), &circuit, &signals, None, row),
            "row {place}"
        );
    }
    Ok(())
}

#[test]
fn a_batch_from_a_seed(rt: HostRuntime) -> Result<(), Fail> {
    let circuit = read_aag(rt.alloc(), ENABLED)?;
    let signals = signals(rt.alloc(), b"l0\ni0", &circuit).expect(&rt, "two signals");
    let options = options(&AGAIN);
    let end = walk_batch(rt.alloc(), &circuit, &signals, &options, None, 0)?;
    let seed = end.seed.expect(&rt, "a seed");
    assert!(rt; is_row(rt.alloc(), &circuit, &signals, Some(&seed), &AGAIN));
    Ok(())
}
