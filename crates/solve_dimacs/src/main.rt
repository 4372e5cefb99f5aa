//! A tool of the bench: the solver alone, over a formula in DIMACS.
#![tactic(auto)]

mod solving;
mod stop;
mod tally;
mod writing;

use crate::solving::{budget, solved};
use crate::stop::Stop;
use crate::tally::{hints, lemmas};
use crate::writing::text;
use run_io::{HostDesk, HostSink, write_all};
use sat_solver::{Answer, Counted};
use std::env;
use std::process::ExitCode;

/// The words after the program's name.
fn words(rt: &HostRuntime) -> Result<Vec<Vec<u8>>, Stop> {
    let mut words = Vec::new(rt.alloc());
    for word in env::args(rt)?.skip(1) {
        words.push(word.into_bytes())?;
    }
    Ok(words)
}

/// Says on the error stream which answer it is, what it took and what its proof has, as far as the stream takes it: the exit
/// status.
fn report(rt: &HostRuntime, counted: &Counted) -> u8 {
    let conflicts = counted.conflicts;
    let (name, proof, status) = match &counted.answer {
        Answer::Sat(_) => {
            let _ = eprintln!(rt; "sat conflicts={conflicts}");
            return 10;
        }
        Answer::Unsat(proof) => ("unsat", proof, 20),
        Answer::Spent(proof) => ("spent", proof, 30),
    };
    let _ = eprintln!(rt;
        "{name} conflicts={conflicts} lemmas={} hints={}",
        lemmas(proof),
        hints(proof)
    );
    status
}

/// Solves the formula in a file within a budget of lemmas, and writes the answer: the exit status.
fn run(rt: &HostRuntime) -> Result<u8, Stop> {
    let words = words(rt)?;
    let [formula, lemmas] = words.as_slice() else {
        return Err(Stop::Usage);
    };
    let lemmas = budget(lemmas)?;
    let counted = solved(rt.alloc(), &mut HostDesk::new(rt), formula, lemmas)?;
    let text = text(rt.alloc(), &counted.answer)?;
    write_all(&mut HostSink::new(rt.stdout()), &text)?;
    Ok(report(rt, &counted))
}

fn main(rt: HostRuntime) -> ExitCode {
    match run(&rt) {
        Ok(status) => ExitCode::from(status),
        Err(stop) => {
            let _ = eprintln!(rt; "solve_dimacs: {stop}");
            ExitCode::from(stop as u8)
        }
    }
}
