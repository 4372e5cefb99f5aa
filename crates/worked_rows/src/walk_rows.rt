//! What `cover` finds by random walks and by searches from their seeds, in whole reports that a program of another kind foretold.

use crate::proved_rows::{GRANTS, TOKENS};
use crate::setting::Setting;
use crate::sweep_rows::{COUNTER, after};
use cover_run::Status;
use std::alloc::Global;
use std::marker::Sync;
use std::test::Fail;
use std::thread::Threads;

/// A chain of six latches, which fill one after another.
pub(crate) const CHAIN: &[u8] = b"aag 6 0 6 0 0\n2 1\n4 2\n6 4\n8 6\n10 8\n12 10\n";

/// Two bits that count the steps at which the input is true.
const COUNT: &[u8] =
    b"aag 10 1 2 0 7\n2\n4 13\n6 21\n8 4 3\n10 5 2\n12 9 11\n14 4 2\n16 6 15\n18 7 14\n20 17 19\n";

/// A latch that takes the conjunction of seven inputs.
const CONJUNCTION: &[u8] =
    b"aag 14 7 1 0 6\n2\n4\n6\n8\n10\n12\n14\n16 28\n18 2 4\n20 18 6\n22 20 8\n24 22 10\n26 24 12\n28 26 14\n";

/// A chain of three latches behind an input that must be true.
pub(crate) const HELD: &[u8] = b"aag 4 1 3 0 0 0 1\n2\n4 2\n6 4\n8 6\n2\n";

/// A latch that keeps its free start.
const FREE: &[u8] = b"aag 1 0 1 0 0\n2 2 2\n";

/// A run of which no search chooses anything.
struct Row {
    about: &'static str,
    words: &'static [&'static [u8]],
    circuit: &'static [u8],
    signals: &'static [u8],
    status: Status,
    report: &'static [u8],
}

const ROWS: [Row; 7] = [
    Row {
        about: "a hop goes on from the seed of a batch",
        words: &[
            b"cover",
            b"a",
            b"b",
            b"--strength",
            b"0",
            b"--rounds",
            b"0",
            b"--depth",
            b"0",
            b"--batches",
            b"1",
            b"--length",
            b"2",
            b"--hop",
            b"2",
        ],
        circuit: CHAIN,
        signals: b"l1\nl3\nl5",
        status: Status::Open,
        report: b"ketch 1\nsize 0 6 3\noptions 0 1 2 100 2 1 20000 0 0 0\nhistory 2\n0 0 0 r zero 0\n1 0 1 r hop:0 1\n\
    seeds 1\nseed 0 1\n000000\n\n100000\ninvs 0\ngoals 8\ngoal 0 reached 0\n1\nb0\n000000\n\n.\n\
    goal 1 reached 1\n1\nb1\n000000\n\n\n\n.\ngoal 2 open depth 0 hops 2 strength 0\n\
    goal 3 open depth 0 hops 2 strength 0\ngoal 4 open depth 0 hops 2 strength 0\n\
    goal 5 open depth 0 hops 2 strength 0\ngoal 6 open depth 0 hops 2 strength 0\n\
    goal 7 open depth 0 hops 2 strength 0\nspents 0\nrefutes 0\nend 2 0 6\n",
    },
    Row {
        about: "each goal has the trace of its least step and lane",
        words: &[
            b"cover",
            b"a",
            b"b",
            b"--strength",
            b"0",
            b"--rounds",
            b"0",
            b"--depth",
            b"0",
            b"--batches",
            b"1",
            b"--length",
            b"6",
            b"--hop",
            b"0",
        ],
        circuit: COUNT,
        signals: b"l0\nl1",
        status: Status::Settled,
        report: b"ketch 1\nsize 1 2 2\noptions 0 1 6 100 0 1 20000 0 0 0\nhistory 4\n0 0 0 r zero 0\n1 0 1 r walk:0 1\n\
    2 0 2 r walk:0 2\n3 0 3 r walk:0 3\nseeds 1\nseed 0 5\n00\n0\n1\n0\n1\n1\n11\ninvs 0\ngoals 4\n\
    goal 0 reached 0\n1\nb0\n00\n0\n.\ngoal 1 reached 1\n1\nb1\n00\n1\n1\n.\ngoal 2 reached 2\n1\nb2\n00\n1\n\
    1\n0\n.\ngoal 3 reached 3\n1\nb3\n00\n1\n1\n1\n1\n.\nspents 0\nrefutes 0\nend 4 0 0\n",
    },
    Row {
        about: "the second batch visits what the first one misses, and the third has a seed though nothing is open",
        words: &[
            b"cover",
            b"a",
            b"b",
            b"--strength",
            b"0",
            b"--rounds",
            b"0",
            b"--depth",
            b"0",
            b"--batches",
            b"3",
            b"--length",
            b"2",
            b"--hop",
            b"0",
            b"--seed",
            b"3",
        ],
        circuit: CONJUNCTION,
        signals: b"l0",
        status: Status::Settled,
        report: b"ketch 1\nsize 7 1 1\noptions 0 3 2 100 0 3 20000 0 0 0\nhistory 2\n0 0 0 r zero 0\n1 0 1 r walk:1 1\n\
    seeds 3\nseed 0 1\n0\n1011011\n0\nseed 1 1\n0\n1111111\n1\nseed 2 1\n0\n1111111\n1\ninvs 0\ngoals 2\n\
    goal 0 reached 0\n1\nb0\n0\n0000000\n.\ngoal 1 reached 1\n1\nb1\n0\n1111111\n1100010\n.\nspents 0\n\
    refutes 0\nend 2 0 0\n",
    },
    Row {
        about: "what a hop finds has the rows to the seed before its own",
        words: &[
            b"cover",
            b"a",
            b"b",
            b"--strength",
            b"0",
            b"--rounds",
            b"0",
            b"--depth",
            b"0",
            b"--batches",
            b"2",
            b"--length",
            b"3",
            b"--hop",
            b"1",
        ],
        circuit: HELD,
        signals: b"l0\nl1\nl2",
        status: Status::Open,
        report: b"ketch 1\nsize 1 3 3\noptions 0 2 3 100 1 1 20000 0 0 0\nhistory 4\n0 0 0 r sweep 0\n1 0 1 r walk:0 1\n\
    2 0 3 r walk:0 2\n3 0 7 r hop:0 3\nseeds 2\nseed 0 2\n000\n1\n1\n110\nseed 1 2\n000\n1\n1\n110\ninvs 0\n\
    goals 8\ngoal 0 reached 0\n1\nb0\n000\n1\n.\ngoal 1 reached 1\n1\nb1\n000\n1\n1\n.\n\
    goal 2 open depth 0 hops 1 1 strength 0\ngoal 3 reached 2\n1\nb3\n000\n1\n1\n1\n.\n\
    goal 4 open depth 0 hops 1 1 strength 0\ngoal 5 open depth 0 hops 1 1 strength 0\n\
    goal 6 open depth 0 hops 1 1 strength 0\ngoal 7 reached 3\n1\nb7\n000\n1\n1\n1\n1\n.\nspents 0\n\
    refutes 0\nend 4 0 4\n",
    },
    Row {
        about: "a batch ends when all lanes are dead",
        words: &[
            b"cover",
            b"a",
            b"b",
            b"--strength",
            b"0",
            b"--rounds",
            b"0",
            b"--depth",
            b"0",
            b"--batches",
            b"1",
            b"--length",
            b"1000",
            b"--hop",
            b"0",
        ],
        circuit: HELD,
        signals: b"l0\nl1\nl2",
        status: Status::Open,
        report: b"ketch 1\nsize 1 3 3\noptions 0 1 1000 100 0 1 20000 0 0 0\nhistory 4\n0 0 0 r sweep 0\n1 0 1 r walk:0 1\n\
    2 0 3 r walk:0 2\n3 0 7 r walk:0 3\nseeds 1\nseed 0 4\n000\n1\n1\n1\n1\n111\ninvs 0\ngoals 8\n\
    goal 0 reached 0\n1\nb0\n000\n1\n.\ngoal 1 reached 1\n1\nb1\n000\n1\n1\n.\n\
    goal 2 open depth 0 hops 0 strength 0\ngoal 3 reached 2\n1\nb3\n000\n1\n1\n1\n.\n\
    goal 4 open depth 0 hops 0 strength 0\ngoal 5 open depth 0 hops 0 strength 0\n\
    goal 6 open depth 0 hops 0 strength 0\ngoal 7 reached 3\n1\nb7\n000\n1\n1\n1\n1\n.\nspents 0\nrefutes 0\n\
    end 4 0 4\n",
    },
    Row {
        about: "a batch ends when nothing is new",
        words: &[
            b"cover",
            b"a",
            b"b",
            b"--strength",
            b"0",
            b"--rounds",
            b"0",
            b"--depth",
            b"0",
            b"--batches",
            b"1",
            b"--length",
            b"50",
            b"--stall",
            b"3",
            b"--hop",
            b"0",
        ],
        circuit: CHAIN,
        signals: b"l1\nl3\nl5",
        status: Status::Open,
        report: b"ketch 1\nsize 0 6 3\noptions 0 1 50 3 0 1 20000 0 0 0\nhistory 4\n0 0 0 r zero 0\n1 0 1 r zero 1\n\
    2 0 3 r zero 2\n3 0 7 r zero 3\nseeds 1\nseed 0 9\n000000\n\n\n\n\n\n\n\n\n\n111111\ninvs 0\ngoals 8\n\
    goal 0 reached 0\n1\nb0\n000000\n\n.\ngoal 1 reached 1\n1\nb1\n000000\n\n\n\n.\n\
    goal 2 open depth 0 hops 0 strength 0\ngoal 3 reached 2\n1\nb3\n000000\n\n\n\n\n\n.\n\
    goal 4 open depth 0 hops 0 strength 0\ngoal 5 open depth 0 hops 0 strength 0\n\
    goal 6 open depth 0 hops 0 strength 0\ngoal 7 reached 3\n1\nb7\n000000\n\n\n\n\n\n\n\n.\nspents 0\n\
    refutes 0\nend 4 0 4\n",
    },
    Row {
        about: "the seed of a lane whose free latch starts at 1",
        words: &[
            b"cover",
            b"a",
            b"b",
            b"--strength",
            b"0",
            b"--rounds",
            b"0",
            b"--depth",
            b"0",
            b"--batches",
            b"1",
            b"--length",
            b"1",
            b"--hop",
            b"0",
        ],
        circuit: FREE,
        signals: b"l0",
        status: Status::Settled,
        report: b"ketch 1\nsize 0 1 1\noptions 0 1 1 100 0 1 20000 0 0 0\nhistory 2\n0 0 0 r zero 0\n1 0 1 r sweep 1\n\
    seeds 1\nseed 0 0\n1\n1\ninvs 0\ngoals 2\ngoal 0 reached 0\n1\nb0\n0\n\n.\ngoal 1 reached 1\n1\nb1\n1\n\n\
    .\nspents 0\nrefutes 0\nend 2 0 0\n",
    },
];

fn is_foretold<R: Threads + Sync>(rt: &R, alloc: Global, row: &Row) -> Result<bool, Fail> {
    let outcome = Setting::new(row.words, row.circuit, row.signals).run(rt, alloc)?;
    Ok(outcome.is(row.status, row.report, b""))
}

#[test]
fn foretold(rt: HostRuntime) -> Result<(), Fail> {
    for row in &ROWS {
        assert!(rt; is_foretold(&rt, rt.alloc(), row)?, "{}", row.about);
    }
    Ok(())
}

/// A run of which searches or proofs choose something: a piece of its report, and how this ends.
struct PieceRow {
    about: &'static str,
    words: &'static [&'static [u8]],
    circuit: &'static [u8],
    signals: &'static [u8],
    status: Status,
    piece: &'static [u8],
    end: &'static [u8],
}

const PIECES: [PieceRow; 6] = [
    PieceRow {
        about: "walks find what needs an input and a step",
        words: &[b"cover", b"a", b"b", b"--depth", b"0", b"--workers", b"1"],
        circuit: COUNTER,
        signals: b"l0\n@enable\n",
        status: Status::Settled,
        piece: b" walk:0 ",
        end: b"spents 0\nrefutes 0\nend 4 0 0\n",
    },
    PieceRow {
        about: "a constraint that is never true leaves no seed",
        words: &[b"cover", b"a", b"b", b"--strength", b"0"],
        circuit: b"aag 1 0 1 0 0 0 1\n2 3\n0\n",
        signals: b"l0",
        status: Status::Settled,
        piece: b"\nseeds 2\nseed 0 none\nseed 1 none\ninvs 1\n",
        end: b"spents 0\nrefutes 0\nend 0 2 0\n",
    },
    PieceRow {
        about: "batches whose goals are all settled have seeds",
        words: &[b"cover", b"a", b"b"],
        circuit: TOKENS,
        signals: GRANTS,
        status: Status::Settled,
        piece: b"\nseeds 2\nseed 0 1",
        end: b"spents 0\nrefutes 0\nend 5 11 0\n",
    },
    PieceRow {
        about: "the walk, then proofs, then a hop: two goals are left that lie behind its end",
        words: &[
            b"cover",
            b"a",
            b"b",
            b"--depth",
            b"0",
            b"--length",
            b"2",
            b"--batches",
            b"1",
            b"--hop",
            b"2",
            b"--rounds",
            b"0",
            b"--workers",
            b"1",
        ],
        circuit: CHAIN,
        signals: b"l1\nl3\nl5",
        status: Status::Open,
        piece: b"history 6\n0 0 0 r zero 0\n1 0 2 u proved 1\n2 0 4 u proved 2\n3 0 5 u proved 3\n4 0 6 u proved 4\n\
    5 0 1 r hop:0 5\nseeds 1\nseed 0 1\n000000\n\n100000\ninvs 1\n",
        end: b"\ngoal 7 open depth 0 hops 2 strength 2\nspents 0\nrefutes 0\nend 2 4 2\n",
    },
    PieceRow {
        about: "a constraint that is false at reset leaves no seed",
        words: &[b"cover", b"a", b"b", b"--length", b"1"],
        circuit: b"aag 1 0 1 0 0 0 1\n2 1\n2\n",
        signals: b"l0",
        status: Status::Settled,
        piece: b"\nhistory 2\n0 0 0 u proved 0\n1 0 1 u proved 1\nseeds 2\nseed 0 none\nseed 1 none\ninvs 1\ninv 1\n-1 0\n",
        end: b"spents 0\nrefutes 0\nend 0 2 0\n",
    },
    PieceRow {
        about: "a batch without a free word, whose seed is at the second step",
        words: &[
            b"cover",
            b"a",
            b"b",
            b"--depth",
            b"1",
            b"--batches",
            b"1",
            b"--length",
            b"2",
            b"--rounds",
            b"0",
            b"--workers",
            b"1",
        ],
        circuit: b"aag 2 0 2 0 0\n2 4 1\n4 2\n",
        signals: b"l0\nl1\n",
        status: Status::Settled,
        piece: b"\nseeds 1\nseed 0 1\n10\n\n01\ninvs 1\ninv 2\n1 2 0\n",
        end: b"spents 0\nrefutes 0\nend 2 2 0\n",
    },
];

fn has_piece<R: Threads + Sync>(rt: &R, alloc: Global, row: &PieceRow) -> Result<bool, Fail> {
    let outcome = Setting::new(row.words, row.circuit, row.signals).run(rt, alloc)?;
    let out = outcome.out.as_slice();
    let told = !after(out, row.piece).is_empty();
    Ok(outcome.status == row.status && told && out.ends_with(row.end))
}

#[test]
fn pieces(rt: HostRuntime) -> Result<(), Fail> {
    for row in &PIECES {
        assert!(rt; has_piece(&rt, rt.alloc(), row)?, "{}", row.about);
    }
    Ok(())
}
