//! One run over devices in memory, and what it left.

use cover_run::{OpenGate, Status, run};
use ketch_base::OutOfMemory;
use run_io::{FileText, MemoryDesk, MemorySink};
use std::alloc::{AllocError, Global};
use std::marker::Sync;
use std::thread::Threads;

/// The words of a run, the files `a`, `b` and `c`, and which calls of its devices fail, counted from 1.
#[derive(Drop)]
pub struct Setting<'a> {
    pub words: &'a [&'a [u8]],
    pub first: &'a [u8],
    pub second: &'a [u8],
    pub third: &'a [u8],
    pub desk_fails: Option<u64>,
    pub sink_fails: Option<u64>,
    /// How many bytes a write takes at most.
    pub most: usize,
}

/// What a run answered and wrote.
#[derive(Debug, Drop)]
pub struct Outcome {
    pub status: Status,
    pub out: Vec<u8>,
    pub err: Vec<u8>,
}

impl Outcome {
    pub fn is(&self, status: Status, out: &[u8], err: &[u8]) -> bool {
        self.status == status && self.out.as_slice() == out && self.err.as_slice() == err
    }
}

const ROOM: usize = 65536;

fn listed(alloc: Global, call: Option<u64>) -> Result<Vec<u64>, AllocError> {
    let mut calls = Vec::new(alloc);
    if let Some(call) = call {
        calls.push(call)?;
    }
    Ok(calls)
}

fn file(alloc: Global, name: &[u8], bytes: &[u8]) -> Result<FileText, AllocError> {
    Ok(FileText {
        name: name.to_vec(alloc)?,
        bytes: bytes.to_vec(alloc)?,
    })
}

impl<'a> Setting<'a> {
    /// These words over these two files and an empty third, with devices that don't fail.
    pub fn new(words: &'a [&'a [u8]], first: &'a [u8], second: &'a [u8]) -> Setting<'a> {
        Setting {
            words,
            first,
            second,
            third: b"",
            desk_fails: None,
            sink_fails: None,
            most: ROOM,
        }
    }

    /// Without random walks, whose seeds would fill the report.
    pub fn cover(circuit: &'a [u8], signals: &'a [u8]) -> Setting<'a> {
        Setting::new(
            &[b"cover", b"a", b"b", b"--batches", b"0"],
            circuit,
            signals,
        )
    }

    pub fn goals(circuit: &'a [u8], signals: &'a [u8]) -> Setting<'a> {
        Setting::new(&[b"goals", b"a", b"b"], circuit, signals)
    }

    pub fn replay(circuit: &'a [u8], signals: &'a [u8], witness: &'a [u8]) -> Setting<'a> {
        let mut setting = Setting::new(&[b"replay", b"a", b"b", b"c"], circuit, signals);
        setting.third = witness;
        setting
    }

    pub fn lrat(formula: &'a [u8], proof: &'a [u8]) -> Setting<'a> {
        Setting::new(&[b"lrat", b"a", b"b"], formula, proof)
    }

    /// Runs over the three files.
    pub fn run<R: Threads + Sync>(&self, rt: &R, alloc: Global) -> Result<Outcome, OutOfMemory> {
        let files = vec![in alloc;
            file(alloc, b"a", self.first)?,
            file(alloc, b"b", self.second)?,
            file(alloc, b"c", self.third)?,
        ]?;
        let mut desk = MemoryDesk::new(alloc, files, listed(alloc, self.desk_fails)?)?;
        let mut out = MemorySink::new(alloc, ROOM, self.most, listed(alloc, self.sink_fails)?)?;
        let mut err = MemorySink::new(alloc, ROOM, ROOM, Vec::new(alloc))?;
        let mut words = Vec::new(alloc);
        for word in self.words {
            words.push(word.to_vec(alloc)?)?;
        }
        let status = run(rt, alloc, &words, &mut desk, &mut out, &mut err, &OpenGate);
        Ok(Outcome {
            status,
            out: out.taken().to_vec(alloc)?,
            err: err.taken().to_vec(alloc)?,
        })
    }
}
