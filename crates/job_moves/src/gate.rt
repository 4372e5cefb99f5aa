//! A watcher of the workers, for tests.

use std::marker::Sync;

/// What the workers tell of their jobs. It takes no memory, and changes no answer.
pub trait Gate: Sync {
    fn before(&self, worker: u32, job: u32);

    fn posted(&self, worker: u32, number: u64, goal: u32);

    fn after(&self, worker: u32, job: u32);
}

/// The gate that holds nobody.
#[derive(Clone, Copy, Debug)]
pub struct OpenGate;

impl Gate for OpenGate {
    fn before(&self, _worker: u32, _job: u32) {}

    fn posted(&self, _worker: u32, _number: u64, _goal: u32) {}

    fn after(&self, _worker: u32, _job: u32) {}
}
