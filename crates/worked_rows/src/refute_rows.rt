//! What `cover --proofs` tells of the steps that a search went through whole: whole reports, and each proof as the command
//! `lrat` judges it. The formulas are made from the circuits by another program.

use crate::proved_rows::{RING, STUCK, is_accepted};
use crate::setting::Setting;
use crate::spent_rows::{LATE_PARITIES, after_lines};
use crate::sweep_rows::after;
use crate::walk_rows::{CHAIN, HELD};
use cover_run::Status;
use std::alloc::Global;
use std::marker::Sync;
use std::test::Fail;
use std::thread::Threads;
use text_words::decimal_number;

/// What stands before a proof, and the formula that the proof refutes; none for a proof of another kind.
type Piece = (&'static [u8], Option<&'static [u8]>);

/// A run of which no search chooses anything: its report up to each proof, and what stands after the last.
struct Row {
    about: &'static str,
    words: &'static [&'static [u8]],
    circuit: &'static [u8],
    signals: &'static [u8],
    status: Status,
    pieces: &'static [Piece],
    end: &'static [u8],
}

const ROWS: [Row; 5] = [
    Row {
        about: "each step up to the depth has its query",
        words: &[
            b"cover",
            b"a",
            b"b",
            b"--depth",
            b"2",
            b"--strength",
            b"0",
            b"--batches",
            b"0",
            b"--proofs",
        ],
        circuit: STUCK,
        signals: b"l0",
        status: Status::Open,
        pieces: &[
            (
                b"ketch 1\nsize 0 1 1\noptions 2 0 1000 100 4 1 20000 0 0 1\nhistory 1\n0 0 0 r zero 0\nseeds 0\ninvs 0\n\
                goals 2\ngoal 0 reached 0\n1\nb0\n0\n\n.\ngoal 1 open depth 2 hops strength 0\nspents 0\nrefutes 3\n\
                refute sweep 0\nblocked 1 0\n",
                Some(b"p cnf 2 3\n-1 0\n-2 0\n2 0\n"),
            ),
            (
                b"refute sweep 1\nblocked 1 0\n",
                Some(b"p cnf 4 6\n-1 0\n-2 0\n-3 0\n-4 2 0\n4 -2 0\n4 0\n"),
            ),
            (
                b"refute sweep 2\nblocked 1 0\n",
                Some(b"p cnf 6 9\n-1 0\n-2 0\n-3 0\n-4 2 0\n4 -2 0\n-5 0\n-6 4 0\n6 -4 0\n6 0\n"),
            ),
        ],
        end: b"end 1 0 1\n",
    },
    Row {
        about: "a query leaves out all that is settled",
        words: &[
            b"cover",
            b"a",
            b"b",
            b"--depth",
            b"1",
            b"--strength",
            b"1",
            b"--batches",
            b"0",
            b"--proofs",
        ],
        circuit: RING,
        signals: b"l0\nl1",
        status: Status::Open,
        pieces: &[
            (
                b"ketch 1\nsize 0 2 2\noptions 1 0 1000 100 4 1 20000 1 0 1\nhistory 2\n0 0 1 r zero 0\n1 0 2 r zero 1\n\
                seeds 0\ninvs 0\ngoals 4\ngoal 0 open depth 1 hops strength 1\ngoal 1 reached 0\n1\nb1\n10\n\n.\n\
                goal 2 reached 1\n1\nb2\n10\n\n\n.\ngoal 3 open depth 1 hops strength 1\nspents 0\nrefutes 2\nrefute sweep 0\n\
                blocked 2 1 2\n",
                Some(b"p cnf 3 5\n-1 0\n2 0\n-3 0\n-2 3 0\n2 -3 0\n"),
            ),
            (
                b"refute sweep 1\nblocked 2 1 2\n",
                Some(
                    b"p cnf 6 10\n-1 0\n2 0\n-3 0\n-4 0\n-5 3 0\n5 -3 0\n-6 2 0\n6 -2 0\n-5 6 0\n5 -6 0\n",
                ),
            ),
        ],
        end: b"end 2 0 2\n",
    },
    Row {
        about: "the queries stop at the step that settles the last goal",
        words: &[
            b"cover",
            b"a",
            b"b",
            b"--depth",
            b"10",
            b"--strength",
            b"0",
            b"--batches",
            b"0",
            b"--proofs",
        ],
        circuit: HELD,
        signals: b"l2",
        status: Status::Settled,
        pieces: &[
            (
                b"ketch 1\nsize 1 3 1\noptions 10 0 1000 100 4 1 20000 0 0 1\nhistory 2\n0 0 0 r sweep 0\n1 0 1 r sweep 1\n\
                seeds 0\ninvs 0\ngoals 2\ngoal 0 reached 0\n1\nb0\n000\n1\n.\ngoal 1 reached 1\n1\nb1\n000\n1\n1\n1\n1\n.\n\
                spents 0\nrefutes 3\nrefute sweep 0\nblocked 1 0\n",
                Some(b"p cnf 5 6\n-1 0\n2 0\n-3 0\n-4 0\n-5 0\n5 0\n"),
            ),
            (
                b"refute sweep 1\nblocked 1 0\n",
                Some(
                    b"p cnf 10 14\n-1 0\n2 0\n-3 0\n-4 0\n-5 0\n-6 0\n7 0\n-8 2 0\n8 -2 0\n-9 3 0\n9 -3 0\n-10 4 0\n10 -4 0\n10 0\n",
                ),
            ),
            (
                b"refute sweep 2\nblocked 1 0\n",
                Some(
                    b"p cnf 15 22\n-1 0\n2 0\n-3 0\n-4 0\n-5 0\n-6 0\n7 0\n-8 2 0\n8 -2 0\n-9 3 0\n9 -3 0\n-10 4 0\n10 -4 0\n-11 0\n\
                12 0\n-13 7 0\n13 -7 0\n-14 8 0\n14 -8 0\n-15 9 0\n15 -9 0\n15 0\n",
                ),
            ),
        ],
        end: b"end 2 0 0\n",
    },
    Row {
        about: "a hop's queries start at the seed",
        words: &[
            b"cover",
            b"a",
            b"b",
            b"--strength",
            b"0",
            b"--depth",
            b"0",
            b"--batches",
            b"1",
            b"--length",
            b"2",
            b"--hop",
            b"2",
            b"--proofs",
        ],
        circuit: CHAIN,
        signals: b"l1\nl3\nl5",
        status: Status::Open,
        pieces: &[
            (
                b"ketch 1\nsize 0 6 3\noptions 0 1 2 100 2 1 20000 0 0 1\nhistory 2\n0 0 0 r zero 0\n1 0 1 r hop:0 1\nseeds 1\n\
                seed 0 1\n000000\n\n100000\ninvs 0\ngoals 8\ngoal 0 reached 0\n1\nb0\n000000\n\n.\ngoal 1 reached 1\n1\nb1\n\
                000000\n\n\n\n.\ngoal 2 open depth 0 hops 2 strength 0\ngoal 3 open depth 0 hops 2 strength 0\n\
                goal 4 open depth 0 hops 2 strength 0\ngoal 5 open depth 0 hops 2 strength 0\n\
                goal 6 open depth 0 hops 2 strength 0\ngoal 7 open depth 0 hops 2 strength 0\nspents 0\nrefutes 4\n\
                refute sweep 0\nblocked 1 0\n",
                Some(b"p cnf 7 8\n-1 0\n-2 0\n-3 0\n-4 0\n-5 0\n-6 0\n-7 0\n3 5 7 0\n"),
            ),
            (
                b"refute hop 0 0\nblocked 1 0\n",
                Some(b"p cnf 7 8\n-1 0\n2 0\n-3 0\n-4 0\n-5 0\n-6 0\n-7 0\n3 5 7 0\n"),
            ),
            (
                b"refute hop 0 1\nblocked 2 0 1\n",
                Some(
                    b"p cnf 14 22\n-1 0\n2 0\n-3 0\n-4 0\n-5 0\n-6 0\n-7 0\n-8 0\n-9 -1 0\n9 1 0\n-10 2 0\n10 -2 0\n-11 3 0\n\
                11 -3 0\n-12 4 0\n12 -4 0\n-13 5 0\n13 -5 0\n-14 6 0\n14 -6 0\n10 12 14 0\n-10 12 14 0\n",
                ),
            ),
            (
                b"refute hop 0 2\nblocked 2 0 1\n",
                Some(
                    b"p cnf 21 35\n-1 0\n2 0\n-3 0\n-4 0\n-5 0\n-6 0\n-7 0\n-8 0\n-9 -1 0\n9 1 0\n-10 2 0\n10 -2 0\n-11 3 0\n\
                11 -3 0\n-12 4 0\n12 -4 0\n-13 5 0\n13 -5 0\n-14 6 0\n14 -6 0\n-15 0\n-16 -8 0\n16 8 0\n-17 9 0\n17 -9 0\n\
                -18 10 0\n18 -10 0\n-19 11 0\n19 -11 0\n-20 12 0\n20 -12 0\n-21 13 0\n21 -13 0\n17 19 21 0\n-17 19 21 0\n",
                ),
            ),
        ],
        end: b"end 2 0 6\n",
    },
    Row {
        about: "a spent query has no block here, and the step before it has one",
        words: &[
            b"cover",
            b"a",
            b"b",
            b"--batches",
            b"0",
            b"--lemmas",
            b"1",
            b"--proofs",
        ],
        circuit: LATE_PARITIES,
        signals: b"l0",
        status: Status::Open,
        pieces: &[
            (
                b"ketch 1\nsize 3 1 1\noptions 10 0 1000 100 4 1 1 2 0 1\nhistory 1\n0 0 0 r zero 0\nseeds 0\ninvs 0\ngoals 2\n\
                goal 0 reached 0\n1\nb0\n0\n000\n.\ngoal 1 open depth 0 hops strength none\nspents 2\nspent sweep 1\n\
                blocked 1 0\n",
                None,
            ),
            (b"spent kept 0 1\n-1 0\n", None),
            (
                b"refutes 1\nrefute sweep 0\nblocked 1 0\n",
                Some(
                    b"p cnf 20 48\n-1 0\n-5 2 0\n-5 3 0\n5 -2 -3 0\n-6 -2 0\n-6 -3 0\n6 2 3 0\n-7 -5 0\n-7 -6 0\n7 5 6 0\n-8 7 0\n\
                -8 4 0\n8 -7 -4 0\n-9 -7 0\n-9 -4 0\n9 7 4 0\n-10 -8 0\n-10 -9 0\n10 8 9 0\n-11 3 0\n-11 4 0\n11 -3 -4 0\n\
                -12 -3 0\n-12 -4 0\n12 3 4 0\n-13 -11 0\n-13 -12 0\n13 11 12 0\n-14 13 0\n-14 2 0\n14 -13 -2 0\n-15 -13 0\n\
                -15 -2 0\n15 13 2 0\n-16 -14 0\n-16 -15 0\n16 14 15 0\n-17 10 0\n-17 16 0\n17 -10 -16 0\n-18 -10 0\n\
                -18 -16 0\n18 10 16 0\n-19 -17 0\n-19 -18 0\n19 17 18 0\n-20 0\n20 0\n",
                ),
            ),
        ],
        end: b"end 1 0 1\n",
    },
];

/// The lines of a proof, whose number stands before them, and what follows them.
fn proof_at(text: &[u8]) -> Option<(&[u8], &[u8])> {
    let word = text.strip_prefix(b"proof ".as_slice())?;
    let lines = after(word, b"\n");
    let digits = word.get(..word.len().saturating_sub(lines.len() + 1))?;
    let count = u32::try_from(decimal_number(digits)?).ok()?;
    let rest = after_lines(lines, count);
    let proof = lines.get(..lines.len().saturating_sub(rest.len()))?;
    Some((proof, rest))
}

/// What follows a proof that stands behind this front and, where it has a formula, is accepted for it.
fn after_piece<'a, R: Threads + Sync>(
    rt: &R,
    alloc: Global,
    text: &'a [u8],
    piece: &Piece,
) -> Result<Option<&'a [u8]>, Fail> {
    if !text.starts_with(piece.0) {
        return Ok(None);
    }
    let Some((proof, rest)) = proof_at(text.get(piece.0.len()..).unwrap_or(b"")) else {
        return Ok(None);
    };
    match piece.1 {
        Some(formula) if !is_accepted(rt, alloc, formula, proof)? => Ok(None),
        _ => Ok(Some(rest)),
    }
}

fn is_report<R: Threads + Sync>(
    rt: &R,
    alloc: Global,
    row: &Row,
    report: &[u8],
) -> Result<bool, Fail> {
    let mut left = report;
    for piece in row.pieces {
        match after_piece(rt, alloc, left, piece)? {
            Some(rest) => left = rest,
            None => return Ok(false),
        }
    }
    Ok(left == row.end)
}

fn is_told<R: Threads + Sync>(rt: &R, alloc: Global, row: &Row) -> Result<bool, Fail> {
    let outcome = Setting::new(row.words, row.circuit, row.signals).run(rt, alloc)?;
    let told = is_report(rt, alloc, row, &outcome.out)?;
    Ok(told && outcome.status == row.status)
}

#[test]
fn refuted_steps(rt: HostRuntime) -> Result<(), Fail> {
    for row in &ROWS {
        assert!(rt; is_told(&rt, rt.alloc(), row)?, "{}", row.about);
    }
    Ok(())
}
