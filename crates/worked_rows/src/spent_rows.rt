//! What is left of a run that a budget ends: its report, and each proof, judged by the checker.

use crate::setting::Setting;
use crate::sweep_rows::{PARITIES, after};
use cnf_base::read_dimacs;
use cover_run::Status;
use lrat_check::check_spent;
use lrat_text::read_lrat;
use std::alloc::Global;
use std::marker::Sync;
use std::test::Fail;
use std::thread::Threads;
use text_words::lines_at_most_bytes;

/// A latch starts at 0 and takes what the same gates say, so no search is hard before step 1.
pub(crate) const LATE_PARITIES: &[u8] =
    b"aag 19 3 1 0 15\n2\n4\n6\n38 36\n8 2 4\n10 3 5\n12 9 11\n14 12 6\n16 13 7\n18 15 17\n\
    20 4 6\n22 5 7\n24 21 23\n26 24 2\n28 25 3\n30 27 29\n32 18 30\n34 19 31\n36 33 35\n";

/// The gates of the parities, and that they differ: the search for what isn't goal 0, and the question whether no
/// clauses exclude goal 1.
const DIFFER: &[u8] =
    b"p cnf 19 47\n-1 0\n-5 2 0\n-5 3 0\n5 -2 -3 0\n-6 -2 0\n-6 -3 0\n6 2 3 0\n-7 -5 0\n-7 -6 0\n7 5 6 0\n\
    -8 7 0\n-8 4 0\n8 -7 -4 0\n-9 -7 0\n-9 -4 0\n9 7 4 0\n-10 -8 0\n-10 -9 0\n10 8 9 0\n-11 3 0\n\
    -11 4 0\n11 -3 -4 0\n-12 -3 0\n-12 -4 0\n12 3 4 0\n-13 -11 0\n-13 -12 0\n13 11 12 0\n-14 13 0\n\
    -14 2 0\n14 -13 -2 0\n-15 -13 0\n-15 -2 0\n15 13 2 0\n-16 -14 0\n-16 -15 0\n16 14 15 0\n-17 10 0\n\
    -17 16 0\n17 -10 -16 0\n-18 -10 0\n-18 -16 0\n18 10 16 0\n-19 -17 0\n-19 -18 0\n19 17 18 0\n19 0\n";

/// The gates, that the latch is 0 and that it takes a 1: the question whether it stays 0.
const WAKES: &[u8] =
    b"p cnf 20 48\n-1 0\n-5 2 0\n-5 3 0\n5 -2 -3 0\n-6 -2 0\n-6 -3 0\n6 2 3 0\n-7 -5 0\n-7 -6 0\n7 5 6 0\n\
    -8 7 0\n-8 4 0\n8 -7 -4 0\n-9 -7 0\n-9 -4 0\n9 7 4 0\n-10 -8 0\n-10 -9 0\n10 8 9 0\n-11 3 0\n\
    -11 4 0\n11 -3 -4 0\n-12 -3 0\n-12 -4 0\n12 3 4 0\n-13 -11 0\n-13 -12 0\n13 11 12 0\n-14 13 0\n\
    -14 2 0\n14 -13 -2 0\n-15 -13 0\n-15 -2 0\n15 13 2 0\n-16 -14 0\n-16 -15 0\n16 14 15 0\n-17 10 0\n\
    -17 16 0\n17 -10 -16 0\n-18 -10 0\n-18 -16 0\n18 10 16 0\n-19 -17 0\n-19 -18 0\n19 17 18 0\n-20 0\n\
    19 0\n";

/// Two steps from reset, where the latch is 1 at the second: the search for what isn't goal 0.
const WOKEN: &[u8] =
    b"p cnf 40 96\n-1 0\n-5 2 0\n-5 3 0\n5 -2 -3 0\n-6 -2 0\n-6 -3 0\n6 2 3 0\n-7 -5 0\n-7 -6 0\n7 5 6 0\n\
    -8 7 0\n-8 4 0\n8 -7 -4 0\n-9 -7 0\n-9 -4 0\n9 7 4 0\n-10 -8 0\n-10 -9 0\n10 8 9 0\n-11 3 0\n\
    -11 4 0\n11 -3 -4 0\n-12 -3 0\n-12 -4 0\n12 3 4 0\n-13 -11 0\n-13 -12 0\n13 11 12 0\n-14 13 0\n\
    -14 2 0\n14 -13 -2 0\n-15 -13 0\n-15 -2 0\n15 13 2 0\n-16 -14 0\n-16 -15 0\n16 14 15 0\n-17 10 0\n\
    -17 16 0\n17 -10 -16 0\n-18 -10 0\n-18 -16 0\n18 10 16 0\n-19 -17 0\n-19 -18 0\n19 17 18 0\n-20 0\n\
    -21 0\n-25 22 0\n-25 23 0\n25 -22 -23 0\n-26 -22 0\n-26 -23 0\n26 22 23 0\n-27 -25 0\n-27 -26 0\n\
    27 25 26 0\n-28 27 0\n-28 24 0\n28 -27 -24 0\n-29 -27 0\n-29 -24 0\n29 27 24 0\n-30 -28 0\n\
    -30 -29 0\n30 28 29 0\n-31 23 0\n-31 24 0\n31 -23 -24 0\n-32 -23 0\n-32 -24 0\n32 23 24 0\n\
    -33 -31 0\n-33 -32 0\n33 31 32 0\n-34 33 0\n-34 22 0\n34 -33 -22 0\n-35 -33 0\n-35 -22 0\n\
    35 33 22 0\n-36 -34 0\n-36 -35 0\n36 34 35 0\n-37 30 0\n-37 36 0\n37 -30 -36 0\n-38 -30 0\n\
    -38 -36 0\n38 30 36 0\n-39 -37 0\n-39 -38 0\n39 37 38 0\n-40 19 0\n40 -19 0\n40 0\n";

/// The words, the circuit and the signals, and the report: what stands before each proof, and the formula of the proof,
/// which has as many lines as the budget has lemmas; and what stands after the last.
struct SpentRow {
    words: &'static [&'static [u8]],
    circuit: &'static [u8],
    signals: &'static [u8],
    lemmas: u32,
    proofs: &'static [(&'static [u8], &'static [u8])],
    end: &'static [u8],
}

const SPENT: [SpentRow; 4] = [
    SpentRow {
        words: &[b"cover", b"a", b"b", b"--batches", b"0", b"--lemmas", b"1"],
        circuit: PARITIES,
        signals: b"o0",
        lemmas: 1,
        proofs: &[
            (
                b"ketch 1\nsize 3 0 1\noptions 10 0 1000 100 4 1 1 2 0 0\nhistory 1\n0 0 0 r zero 0\nseeds 0\ninvs 0\n\
            goals 2\ngoal 0 reached 0\n1\nb0\n\n000\n.\ngoal 1 open depth none hops strength none\n\
            spents 2\nspent sweep 0\nblocked 1 0\nproof 1\n",
                DIFFER,
            ),
            (b"spent excludes 1 0\nproof 1\n", DIFFER),
        ],
        end: b"refutes 0\nend 1 0 1\n",
    },
    SpentRow {
        words: &[b"cover", b"a", b"b", b"--batches", b"0", b"--lemmas", b"5"],
        circuit: PARITIES,
        signals: b"o0",
        lemmas: 5,
        proofs: &[
            (
                b"ketch 1\nsize 3 0 1\noptions 10 0 1000 100 4 1 5 2 0 0\nhistory 1\n0 0 0 r zero 0\nseeds 0\ninvs 0\n\
            goals 2\ngoal 0 reached 0\n1\nb0\n\n000\n.\ngoal 1 open depth none hops strength none\n\
            spents 2\nspent sweep 0\nblocked 1 0\nproof 5\n",
                DIFFER,
            ),
            (b"spent excludes 1 0\nproof 5\n", DIFFER),
        ],
        end: b"refutes 0\nend 1 0 1\n",
    },
    // Step 0 is searched whole. No clause is known to be kept, so no goal is asked for.
    SpentRow {
        words: &[b"cover", b"a", b"b", b"--batches", b"0", b"--lemmas", b"1"],
        circuit: LATE_PARITIES,
        signals: b"l0",
        lemmas: 1,
        proofs: &[
            (
                b"ketch 1\nsize 3 1 1\noptions 10 0 1000 100 4 1 1 2 0 0\nhistory 1\n0 0 0 r zero 0\nseeds 0\ninvs 0\n\
            goals 2\ngoal 0 reached 0\n1\nb0\n0\n000\n.\ngoal 1 open depth 0 hops strength none\n\
            spents 2\nspent sweep 1\nblocked 1 0\nproof 1\n",
                WOKEN,
            ),
            (b"spent kept 0 1\n-1 0\nproof 1\n", WAKES),
        ],
        end: b"refutes 0\nend 1 0 1\n",
    },
    // The seed of a circuit without latches is the empty state, and the hop asks what the sweep asked.
    SpentRow {
        words: &[
            b"cover",
            b"a",
            b"b",
            b"--batches",
            b"1",
            b"--length",
            b"1",
            b"--lemmas",
            b"1",
        ],
        circuit: PARITIES,
        signals: b"o0",
        lemmas: 1,
        proofs: &[
            (
                b"ketch 1\nsize 3 0 1\noptions 10 1 1 100 4 1 1 2 0 0\nhistory 1\n0 0 0 r zero 0\nseeds 1\nseed 0 0\n\n\n\
                invs 0\ngoals 2\ngoal 0 reached 0\n1\nb0\n\n000\n.\ngoal 1 open depth none hops none strength none\n\
                spents 3\nspent sweep 0\nblocked 1 0\nproof 1\n",
                DIFFER,
            ),
            (b"spent hop 0 0\nblocked 1 0\nproof 1\n", DIFFER),
            (b"spent excludes 1 0\nproof 1\n", DIFFER),
        ],
        end: b"refutes 0\nend 1 0 1\n",
    },
];

/// What follows so many lines.
pub(crate) fn after_lines(text: &[u8], count: u32) -> &[u8] {
    let mut rest = text;
    for _ in 0..count {
        rest = after(rest, b"\n");
    }
    rest
}

/// Whether the proof spends so many lemmas on the formula.
fn spends(alloc: Global, formula: &[u8], lemmas: u32, proof: &[u8]) -> bool {
    if formula.len() > 1_000_000 || proof.len() > 1_000_000 {
        return false;
    }
    lines_at_most_bytes(formula);
    lines_at_most_bytes(proof);
    match (read_dimacs(alloc, formula), read_lrat(alloc, proof)) {
        (Ok(formula), Ok(proof)) => {
            check_spent(alloc, &formula, u64::from(lemmas), &proof).is_ok()
        }
        _ => false,
    }
}

/// What follows the lines of a proof that stands behind this front and spends the budget on the formula.
fn after_spent<'a>(
    alloc: Global,
    text: &'a [u8],
    front: &[u8],
    formula: &[u8],
    lemmas: u32,
) -> Option<&'a [u8]> {
    if !text.starts_with(front) {
        return None;
    }
    let lines = text.get(front.len()..)?;
    let rest = after_lines(lines, lemmas);
    let proof = lines.get(..lines.len().saturating_sub(rest.len()))?;
    if spends(alloc, formula, lemmas, proof) {
        Some(rest)
    } else {
        None
    }
}

fn is_report(alloc: Global, row: &SpentRow, report: &[u8]) -> Option<bool> {
    let mut rest = report;
    for proof in row.proofs {
        rest = after_spent(alloc, rest, proof.0, proof.1, row.lemmas)?;
    }
    Some(rest == row.end)
}

fn is_spent<R: Threads + Sync>(rt: &R, alloc: Global, row: &SpentRow) -> Result<bool, Fail> {
    let outcome = Setting::new(row.words, row.circuit, row.signals).run(rt, alloc)?;
    let judged = is_report(alloc, row, &outcome.out) == Some(true);
    Ok(judged && outcome.status == Status::Open)
}

#[test]
fn spent_budgets(rt: HostRuntime) -> Result<(), Fail> {
    for (place, row) in SPENT.iter().enumerate() {
        assert!(rt; is_spent(&rt, rt.alloc(), row)?, "row {place}");
    }
    Ok(())
}
