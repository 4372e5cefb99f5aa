//! A tool of the bench: callers on threads of their own, which post to a board and look at it.
#![tactic(auto)]

mod caller;
mod making;
mod rounds;
mod stop;
mod threads;

use crate::making::{circuit, signals};
use crate::rounds::{Counts, number, rounds};
use crate::stop::Stop;
use std::alloc::Global;
use std::env;
use std::process::ExitCode;
use std::rt::Clock;
use std::thread::Threads;

/// The words after the program's name.
fn words(rt: &HostRuntime) -> Result<Vec<Vec<u8>>, Stop> {
    let mut words = Vec::new(rt.alloc());
    for word in env::args(rt)?.skip(1) {
        words.push(word.into_bytes())?;
    }
    Ok(words)
}

/// Has so many callers post to one board after another, and look at each so often.
fn run<R: Threads + Sync + Clock>(
    rt: &R,
    alloc: Global,
    words: &[Vec<u8>],
) -> Result<Counts, Stop> {
    let [callers, boards, looks] = words else {
        return Err(Stop::Usage);
    };
    let callers = number(callers, 8)?;
    let boards = number(boards, 1_000_000)?;
    let looks = number(looks, 1_000_000)?;
    let circuit = circuit(alloc)?;
    let signals = signals(alloc, &circuit)?;
    let counts = rounds(rt, alloc, &circuit, &signals, callers, boards, looks)?;
    Ok(counts)
}

/// Writes what was counted, and how long it took.
fn report(rt: &HostRuntime, counts: Result<Counts, Stop>) -> ExitCode {
    match counts {
        Ok(counts) => {
            let _ = println!(rt; "{} posts, {} looks", counts.posts, counts.looks);
            let _ = eprintln!(rt; "{} {} {}", counts.posting, counts.looking, counts.starting);
            ExitCode::SUCCESS
        }
        Err(stop) => {
            let _ = eprintln!(rt; "board_bench: {stop}");
            ExitCode::from(stop as u8)
        }
    }
}

fn main(rt: HostRuntime) -> ExitCode {
    match words(&rt) {
        Ok(words) => report(&rt, run(&rt, rt.alloc(), &words)),
        Err(stop) => report(&rt, Err(stop)),
    }
}
