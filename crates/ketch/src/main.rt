//! The program `ketch`: the top call over real files and streams.
#![tactic(auto)]

use cover_run::{OpenGate, Status, run};
use ketch_base::OutOfMemory;
use run_io::{HostDesk, HostSink};
use std::env;
use std::io::ErrorKind;
use std::process::ExitCode;

/// The words after the program's name. One that isn't UTF-8 leaves none, which is a faulty command line.
fn words(rt: &HostRuntime) -> Result<Vec<Vec<u8>>, OutOfMemory> {
    let mut words = Vec::new(rt.alloc());
    let args = match env::args(rt) {
        Ok(args) => args,
        Err(error) if error.kind() == ErrorKind::OutOfMemory => return Err(OutOfMemory),
        Err(_) => return Ok(words),
    };
    for word in args.skip(1) {
        words.push(word.into_bytes())?;
    }
    Ok(words)
}

fn main(rt: HostRuntime) -> ExitCode {
    let Ok(words) = words(&rt) else {
        let _ = rt.eprint("ketch: out of memory\n");
        return ExitCode::from(Status::OutOfMemory as u8);
    };
    let mut desk = HostDesk::new(&rt);
    let mut out = HostSink::new(rt.stdout());
    let mut err = HostSink::new(rt.stderr());
    let status = run(
        &rt,
        rt.alloc(),
        &words,
        &mut desk,
        &mut out,
        &mut err,
        &OpenGate,
    );
    ExitCode::from(status as u8)
}
