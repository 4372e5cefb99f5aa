//! A tool of the bench: the sweep and the prover alone, over a circuit.
#![tactic(auto)]

ghost use Rattle.std.specs.Prelude.{◌≡◌, ◌≤◌, ◌^◌};

mod files;
mod prover;
mod stop;
mod sweeper;
mod words;

use crate::files::{read_circuit, read_named_signals};
use crate::prover::{kept_text, prove};
use crate::stop::Stop;
use crate::sweeper::{search_text, swept};
use crate::words::{Command, Mode, read_command};
use aig_model::{Circuit, Signals};
use inv_prover::Grown;
use run_io::{HostDesk, HostSink, write_all};
use std::env;
use std::process::ExitCode;
use sweep_search::Swept;

/// The words after the program's name.
fn arguments(rt: &HostRuntime) -> Result<Vec<Vec<u8>>, Stop> {
    let mut words = Vec::new(rt.alloc());
    for word in env::args(rt)?.skip(1) {
        words.push(word.into_bytes())?;
    }
    Ok(words)
}

fn report_sweep(rt: &HostRuntime, swept: &Swept) {
    let found = swept.found.len();
    let upto = swept.upto;
    let is_spent = swept.spent.is_some();
    let _ = eprintln!(rt; "found={found} upto={upto:?} spent={is_spent}");
}

fn report_prover(rt: &HostRuntime, grown: &Grown) {
    let (name, clauses) = match grown {
        Grown::Whole { clauses, kept: _ } => ("whole", clauses.len()),
        Grown::Spent {
            clauses,
            place: _,
            proof: _,
        } => ("spent", clauses.len()),
    };
    let _ = eprintln!(rt; "{name} clauses={clauses}");
}

/// Does what the command says, and reports it on the error stream; formulas go to standard output.
fn execute(
    rt: &HostRuntime,
    circuit: &Circuit,
    signals: &Signals,
    command: &Command,
) -> Result<(), Stop>
    requires circuit { signals.now.circuit ≡ circuit.now }
    requires small { command.now.number ≤ 4000000 }
    requires some { 1 ≤ command.now.lemmas }
    requires few { command.now.lemmas ≤ 2 ^ 60 }
{
    let (number, lemmas) = (command.number, command.lemmas);
    match command.mode {
        Mode::Sweep => report_sweep(rt, &swept(rt.alloc(), circuit, signals, number, lemmas)?),
        Mode::Prove => report_prover(rt, &prove(rt.alloc(), circuit, signals, number, lemmas)?),
        Mode::Search => {
            let text = search_text(rt.alloc(), circuit, signals, number, lemmas)?;
            write_all(&mut HostSink::new(rt.stdout()), &text)?;
        }
        Mode::Kept => {
            let text = kept_text(rt.alloc(), circuit, signals, number, lemmas)?;
            write_all(&mut HostSink::new(rt.stdout()), &text)?;
        }
    }
    Ok(())
}

fn run(rt: &HostRuntime) -> Result<(), Stop> {
    let words = arguments(rt)?;
    let [mode, circuit_name, signals_name, number, lemmas] = words.as_slice() else {
        return Err(Stop::Usage);
    };
    let command = read_command(mode, number, lemmas)?;
    let mut desk = HostDesk::new(rt);
    let circuit = read_circuit(rt.alloc(), &mut desk, circuit_name)?;
    let signals = read_named_signals(rt.alloc(), &mut desk, signals_name, &circuit)?;
    execute(rt, &circuit, &signals, &command)
}

fn main(rt: HostRuntime) -> ExitCode {
    match run(&rt) {
        Ok(()) => ExitCode::from(0),
        Err(stop) => {
            let _ = eprintln!(rt; "engine_bench: {stop}");
            ExitCode::from(stop as u8)
        }
    }
}
