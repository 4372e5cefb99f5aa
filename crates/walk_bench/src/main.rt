//! A tool of the bench: batches of walks alone, 64 lanes to a word.
#![tactic(auto)]

mod stop;
mod walking;

use crate::stop::Stop;
use crate::walking::{number, visits};
use run_io::HostDesk;
use std::env;
use std::process::ExitCode;

/// The words after the program's name.
fn words(rt: &HostRuntime) -> Result<Vec<Vec<u8>>, Stop> {
    let mut words = Vec::new(rt.alloc());
    for word in env::args(rt)?.skip(1) {
        words.push(word.into_bytes())?;
    }
    Ok(words)
}

/// Walks so many batches of so many steps, and counts the goals that each visits.
fn run(rt: &HostRuntime) -> Result<u64, Stop> {
    let words = words(rt)?;
    let [circuit, signals, steps, batches] = words.as_slice() else {
        return Err(Stop::Usage);
    };
    let steps = number(steps)?;
    let batches = number(batches)?;
    let mut desk = HostDesk::new(rt);
    let count = visits(rt.alloc(), &mut desk, circuit, signals, steps, batches)?;
    Ok(count)
}

fn main(rt: HostRuntime) -> ExitCode {
    match run(&rt) {
        Ok(count) => {
            let _ = println!(rt; "{count} visits");
            ExitCode::SUCCESS
        }
        Err(stop) => {
            let _ = eprintln!(rt; "walk_bench: {stop}");
            ExitCode::from(stop as u8)
        }
    }
}
