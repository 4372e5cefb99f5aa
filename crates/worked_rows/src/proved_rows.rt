//! Goals that `cover` proves unreachable: the report, and each proof as the command `lrat` judges it.

use crate::setting::Setting;
use crate::sweep_rows::{PARITIES, after};
use cover_run::Status;
use std::alloc::Global;
use std::marker::Sync;
use std::test::Fail;
use std::thread::Threads;

type Words = &'static [&'static [u8]];

const COVER: Words = &[b"cover", b"a", b"b", b"--batches", b"0"];

pub(crate) const RING: &[u8] = b"aag 2 0 2 0 0\n2 4 1\n4 2\n";

/// A latch that stays 0.
pub(crate) const STUCK: &[u8] = b"aag 1 0 1 0 0\n2 2\n";

/// What stands before a proof of one step, and the formula that the proof refutes.
type Proof = (&'static [u8], &'static [u8]);

/// A run whose proofs have one step each, the proofs, and what stands after the last.
struct ProvedRow {
    about: &'static str,
    words: Words,
    circuit: &'static [u8],
    signals: &'static [u8],
    proofs: &'static [Proof],
    end: &'static [u8],
}

const PROVED: [ProvedRow; 6] = [
    ProvedRow {
        about: "one of two latches is 1",
        words: COVER,
        circuit: RING,
        signals: b"l0\nl1\n",
        proofs: &[
            (
                b"ketch 1\nsize 0 2 2\noptions 10 0 1000 100 4 1 20000 2 0 0\nhistory 4\n0 0 1 r zero 0\n1 0 2 r zero 1\n\
                2 0 0 u proved 2\n3 0 3 u proved 3\nseeds 0\ninvs 1\ninv 2\n1 2 0\nproof 1\n",
                b"p cnf 3 5\n-1 0\n2 3 0\n-2 -3 0\n-3 0\n-2 0\n",
            ),
            (
                b"-1 -2 0\nproof 1\n",
                b"p cnf 3 5\n-1 0\n2 3 0\n-2 -3 0\n3 0\n2 0\n",
            ),
            (
                b"goals 4\ngoal 0 unreachable 2 inv 0\nproof 1\n",
                b"p cnf 3 5\n-1 0\n2 3 0\n-2 -3 0\n-2 0\n-3 0\n",
            ),
            (
                b"goal 1 reached 0\n1\nb1\n10\n\n.\ngoal 2 reached 1\n1\nb2\n10\n\n\n.\ngoal 3 unreachable 3 inv 0\nproof 1\n",
                b"p cnf 3 5\n-1 0\n2 3 0\n-2 -3 0\n2 0\n3 0\n",
            ),
        ],
        end: b"spents 0\nrefutes 0\nend 2 2 0\n",
    },
    ProvedRow {
        about: "a constraint that is false",
        words: &[
            b"cover",
            b"a",
            b"b",
            b"--strength",
            b"0",
            b"--batches",
            b"0",
        ],
        circuit: b"aag 1 0 1 0 0 0 1\n2 3\n0\n",
        signals: b"l0",
        proofs: &[
            (
                b"ketch 1\nsize 0 1 1\noptions 10 0 1000 100 4 1 20000 0 0 0\nhistory 2\n0 0 0 u proved 0\n1 0 1 u proved 1\n\
                seeds 0\ninvs 1\ninv 0\ngoals 2\ngoal 0 unreachable 0 inv 0\nproof 1\n",
                b"p cnf 2 3\n-1 0\n1 0\n-2 0\n",
            ),
            (
                b"goal 1 unreachable 1 inv 0\nproof 1\n",
                b"p cnf 2 3\n-1 0\n1 0\n2 0\n",
            ),
        ],
        end: b"spents 0\nrefutes 0\nend 0 2 0\n",
    },
    ProvedRow {
        about: "a constraint that is false at reset",
        words: COVER,
        circuit: b"aag 1 0 1 0 0 0 1\n2 1\n2\n",
        signals: b"l0",
        proofs: &[
            (
                b"ketch 1\nsize 0 1 1\noptions 10 0 1000 100 4 1 20000 2 0 0\nhistory 2\n0 0 0 u proved 0\n1 0 1 u proved 1\n\
                seeds 0\ninvs 1\ninv 1\n-1 0\nproof 1\n",
                b"p cnf 2 4\n-1 0\n2 0\n-2 0\n-1 0\n",
            ),
            (
                b"goals 2\ngoal 0 unreachable 0 inv 0\nproof 1\n",
                b"p cnf 2 4\n-1 0\n2 0\n-2 0\n-2 0\n",
            ),
            (
                b"goal 1 unreachable 1 inv 0\nproof 1\n",
                b"p cnf 2 4\n-1 0\n2 0\n-2 0\n2 0\n",
            ),
        ],
        end: b"spents 0\nrefutes 0\nend 0 2 0\n",
    },
    ProvedRow {
        about: "no latches",
        words: COVER,
        circuit: b"aag 0 0 0 1 0\n0\n",
        signals: b"o0",
        proofs: &[(
            b"ketch 1\nsize 0 0 1\noptions 10 0 1000 100 4 1 20000 2 0 0\nhistory 2\n0 0 0 r zero 0\n1 0 1 u proved 1\n\
            seeds 0\ninvs 1\ninv 0\ngoals 2\ngoal 0 reached 0\n1\nb0\n\n\n.\ngoal 1 unreachable 1 inv 0\nproof 1\n",
            b"p cnf 1 2\n-1 0\n1 0\n",
        )],
        end: b"spents 0\nrefutes 0\nend 1 1 0\n",
    },
    ProvedRow {
        about: "a clause of one literal",
        words: &[
            b"cover",
            b"a",
            b"b",
            b"--strength",
            b"1",
            b"--batches",
            b"0",
        ],
        circuit: STUCK,
        signals: b"l0",
        proofs: &[
            (
                b"ketch 1\nsize 0 1 1\noptions 10 0 1000 100 4 1 20000 1 0 0\nhistory 2\n0 0 0 r zero 0\n1 0 1 u proved 1\n\
                seeds 0\ninvs 1\ninv 1\n-1 0\nproof 1\n",
                b"p cnf 2 3\n-1 0\n-2 0\n2 0\n",
            ),
            (
                b"goals 2\ngoal 0 reached 0\n1\nb0\n0\n\n.\ngoal 1 unreachable 1 inv 0\nproof 1\n",
                b"p cnf 2 3\n-1 0\n-2 0\n2 0\n",
            ),
        ],
        end: b"spents 0\nrefutes 0\nend 1 1 0\n",
    },
    ProvedRow {
        about: "one constant output among variables that nobody defines",
        words: &[
            b"cover",
            b"a",
            b"b",
            b"--depth",
            b"3",
            b"--hop",
            b"3",
            b"--batches",
            b"0",
        ],
        circuit: b"aag 3 0 0 1 0\n0\n",
        signals: b"o0",
        proofs: &[(
            b"ketch 1\nsize 0 0 1\noptions 3 0 1000 100 3 1 20000 2 0 0\nhistory 2\n0 0 0 r zero 0\n1 0 1 u proved 1\n\
            seeds 0\ninvs 1\ninv 0\ngoals 2\ngoal 0 reached 0\n1\nb0\n\n\n.\ngoal 1 unreachable 1 inv 0\nproof 1\n",
            b"p cnf 4 5\n-1 0\n-2 0\n-3 0\n-4 0\n1 0\n",
        )],
        end: b"spents 0\nrefutes 0\nend 1 1 0\n",
    },
];

/// The first line of a text, without its end.
fn line_of(text: &[u8]) -> &[u8] {
    let rest = after(text, b"\n").len() + 1;
    text.get(..text.len().saturating_sub(rest)).unwrap_or(b"")
}

/// Whether the command accepts the proof.
pub(crate) fn is_accepted<R: Threads + Sync>(
    rt: &R,
    alloc: Global,
    formula: &[u8],
    proof: &[u8],
) -> Result<bool, Fail> {
    let outcome = Setting::lrat(formula, proof).run(rt, alloc)?;
    Ok(outcome.is(Status::Settled, b"accepted\n", b""))
}

/// Whether a report has these proofs, which the command accepts, and ends so.
fn is_proved<R: Threads + Sync>(
    rt: &R,
    alloc: Global,
    report: &[u8],
    proofs: &[Proof],
    end: &[u8],
) -> Result<bool, Fail> {
    let mut rest = report;
    for (front, formula) in proofs {
        let lines = rest.get(front.len()..).unwrap_or(b"");
        if !rest.starts_with(*front) || !is_accepted(rt, alloc, *formula, line_of(lines))? {
            return Ok(false);
        }
        rest = after(lines, b"\n");
    }
    Ok(rest == end)
}

fn proves<R: Threads + Sync>(rt: &R, alloc: Global, row: &ProvedRow) -> Result<bool, Fail> {
    let outcome = Setting::new(row.words, row.circuit, row.signals).run(rt, alloc)?;
    if outcome.status != Status::Settled {
        return Ok(false);
    }
    is_proved(rt, alloc, &outcome.out, row.proofs, row.end)
}

#[test]
fn unreachable_goals(rt: HostRuntime) -> Result<(), Fail> {
    for row in &PROVED {
        assert!(rt; proves(&rt, rt.alloc(), row)?, "{}", row.about);
    }
    Ok(())
}

/// What isn't proved at a strength: the words, the circuit, the signals and the report.
type OpenRow = (Words, &'static [u8], &'static [u8], &'static [u8]);

const OPEN: [OpenRow; 2] = [
    (
        &[
            b"cover",
            b"a",
            b"b",
            b"--strength",
            b"0",
            b"--batches",
            b"0",
        ],
        STUCK,
        b"l0",
        b"ketch 1\nsize 0 1 1\noptions 10 0 1000 100 4 1 20000 0 0 0\nhistory 1\n0 0 0 r zero 0\nseeds 0\ninvs 0\n\
        goals 2\ngoal 0 reached 0\n1\nb0\n0\n\n.\ngoal 1 open depth 10 hops strength 0\n\
        spents 0\nrefutes 0\nend 1 0 1\n",
    ),
    (
        &[
            b"cover",
            b"a",
            b"b",
            b"--strength",
            b"1",
            b"--batches",
            b"0",
        ],
        RING,
        b"l0\nl1",
        b"ketch 1\nsize 0 2 2\noptions 10 0 1000 100 4 1 20000 1 0 0\nhistory 2\n0 0 1 r zero 0\n1 0 2 r zero 1\n\
        seeds 0\ninvs 0\ngoals 4\ngoal 0 open depth 10 hops strength 1\ngoal 1 reached 0\n1\nb1\n10\n\n.\n\
        goal 2 reached 1\n1\nb2\n10\n\n\n.\ngoal 3 open depth 10 hops strength 1\n\
        spents 0\nrefutes 0\nend 2 0 2\n",
    ),
];

fn stays_open<R: Threads + Sync>(rt: &R, alloc: Global, row: &OpenRow) -> Result<bool, Fail> {
    let outcome = Setting::new(row.0, row.1, row.2).run(rt, alloc)?;
    Ok(outcome.is(Status::Open, row.3, b""))
}

#[test]
fn low_strengths(rt: HostRuntime) -> Result<(), Fail> {
    for (place, row) in OPEN.iter().enumerate() {
        assert!(rt; stays_open(&rt, rt.alloc(), row)?, "row {place}");
    }
    Ok(())
}

/// Four tokens in a ring, one of which is set at reset; a grant is a token and a request.
pub(crate) const TOKENS: &[u8] =
    b"aig 12 4 4 4 4\n16 1\n10\n12\n14\n18\n20\n22\n24\n\x08\x08\x08\x08\x08\x08\x08\x08i0 req0\ni1 req1\ni2 req2\ni3 req3\n\
    l0 tok0\nl1 tok1\nl2 tok2\nl3 tok3\no0 gnt0\no1 gnt1\no2 gnt2\no3 gnt3\nc\ntoken arbiter\n";

pub(crate) const GRANTS: &[u8] = b"# grants\n@gnt0\n@gnt1\n@gnt2\n@gnt3\n";

const TOKEN_HISTORY: &[u8] =
    b"ketch 1\nsize 4 4 4\noptions 10 0 1000 100 4 1 20000 2 0 0\nhistory 16\n0 0 0 r zero 0\n1 0 1 r sweep 1\n2 0 2 r sweep 2\n\
    3 0 4 r sweep 3\n4 0 8 r sweep 4\n5 0 3 u proved 5\n6 0 5 u proved 6\n7 0 6 u proved 7\n8 0 7 u proved 8\n9 0 9 u proved 9\n\
    10 0 10 u proved 10\n11 0 11 u proved 11\n12 0 12 u proved 12\n13 0 13 u proved 13\n14 0 14 u proved 14\n15 0 15 u proved 15\n\
    seeds 0\ninvs 1\ninv 6\n";

/// No two tokens are set.
const TOKEN_CLAUSES: [&[u8]; 6] = [
    b"-1 -2 0\nproof 1\n",
    b"-1 -3 0\nproof 1\n",
    b"-1 -4 0\nproof 1\n",
    b"-2 -3 0\nproof 1\n",
    b"-2 -4 0\nproof 1\n",
    b"-3 -4 0\nproof 1\n",
];

/// Whether a report has these clauses, each with a proof of one step, and then the goals.
fn has_clauses(report: &[u8]) -> bool {
    let mut rest = after(report, TOKEN_HISTORY);
    for clause in TOKEN_CLAUSES {
        if !rest.starts_with(clause) {
            return false;
        }
        rest = after(after(after(rest, b"\n"), b"\n"), b"\n");
    }
    rest.starts_with(b"goals 16\ngoal 0 reached 0\n")
}

#[test]
fn grants_exclude_each_other(rt: HostRuntime) -> Result<(), Fail> {
    let outcome = Setting::cover(TOKENS, GRANTS).run(&rt, rt.alloc())?;
    let out = outcome.out.as_slice();
    let ends = out.starts_with(TOKEN_HISTORY)
        && out.ends_with(b"spents 0\nrefutes 0\nend 5 11 0\n");
    assert!(rt; outcome.status == Status::Settled && ends && has_clauses(out));
    Ok(())
}

/// The gates alone say it, and the solver chooses the proof.
#[test]
fn gates_alone(rt: HostRuntime) -> Result<(), Fail> {
    let outcome = Setting::cover(PARITIES, b"o0").run(&rt, rt.alloc())?;
    let out = outcome.out.as_slice();
    let front =
        b"ketch 1\nsize 3 0 1\noptions 10 0 1000 100 4 1 20000 2 0 0\nhistory 2\n0 0 0 r zero 0\n1 0 1 u proved 1\n\
        seeds 0\ninvs 1\ninv 0\ngoals 2\ngoal 0 reached 0\n1\nb0\n\n000\n.\ngoal 1 unreachable 1 inv 0\nproof ";
    let ends = out.starts_with(front) && out.ends_with(b"\nspents 0\nrefutes 0\nend 1 1 0\n");
    assert!(rt; outcome.status == Status::Settled && ends);
    Ok(())
}
