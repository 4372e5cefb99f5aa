//! A sink in memory.

ghost use Rattle.std.specs.Prelude.{◌≡◌, ℕ, ◌-◌, ◌<◌, ◌↔◌, [], ◌++◌, length, min, take, Some, Contains, IsErr, IfOk, OnOk, OnErr};
ghost use Rattle.run_io.specs.Count.{Rose, CountsOn, next_count};
ghost use Rattle.run_io.specs.Numbered.{NextFails, after_call};
ghost use Rattle.run_io.specs.Sink.{IsIdle};

use crate::desk::Failed;
use crate::numbered::NumberedCalls;
use crate::sink::Sink;
use ketch_base::OutOfMemory;
use std::alloc::Global;
use std::marker::Model;

/// Bytes in room that is reserved when it is made, so that no write takes memory.
#[derive(Debug, Drop)]
pub struct MemorySink {
    bytes: Vec<u8>,
    room: usize,
    most: usize,
    writes: NumberedCalls,
    faults: u64,
    idle: u64,
}

impl Model for MemorySink {
    ghost use Rattle.std.specs.Prelude.{◌≤◌, vec_capacity};
    ghost use Rattle.run_io.specs.MemorySink.{SinkInMemory};

    ghost Value = { SinkInMemory };

    ghost view = { λ sink. record {
      taken = sink.bytes.items;
      room = sink.room;
      most = sink.most;
      writes = sink.writes;
      faults = sink.faults;
      idle = sink.idle;
    } };

    ghost invariant = { λ sink. sink.room ≤ vec_capacity sink.bytes };
}

impl MemorySink {
    /// Has room for `room` bytes, and takes at most `most` a write. Writes are numbered from 1,
    /// and those in `fails` fail.
    pub fn new(
        alloc: Global,
        room: usize,
        most: usize,
        fails: Vec<u64>,
    ) -> Result<MemorySink, OutOfMemory>
        ensures taken { IfOk result (λ sink. sink.taken ≡ []) }
        ensures limits { IfOk result (λ sink. (sink.room ≡ room) × (sink.most ≡ most)) }
        ensures failing { IfOk result (λ sink.
            (number : ℕ) → Contains sink.writes.failing number ↔ Contains fails.items number) }
        ensures made { IfOk result (λ sink. sink.writes.made ≡ 0) }
        ensures counts { IfOk result (λ sink. (sink.faults ≡ 0) × (sink.idle ≡ 0)) }
    {
        let writes = NumberedCalls::new(alloc, fails)?;
        let bytes = Vec::with_capacity(alloc, room)?;
        Ok(MemorySink {
            bytes,
            room,
            most,
            writes,
            faults: 0,
            idle: 0,
        })
    }

    pub fn taken(&self) -> &[u8]
        ensures bytes { result.now ≡ self.now.taken }
        ensures told { (⟦<MemorySink as Sink>⟧.state self.now).taken ≡ Some result.now }
    {
        self.bytes.as_slice()
    }
}

impl Sink for MemorySink {
    ghost use Rattle.std.specs.Prelude.{Some};

    ghost state = { λ sink. record {
      taken = Some sink.taken;
      faults = sink.faults;
      idle = sink.idle;
    } };

    fn write(&mut self, piece: &[u8]) -> Result<usize, Failed>
        ensures fails { IsErr result ↔ NextFails self.old.writes }
        ensures writes { self.new.writes ≡ after_call self.old.writes }
        ensures limits { (self.new.room ≡ self.old.room) × (self.new.most ≡ self.old.most) }
        ensures counts { CountsOn self.old.faults self.new.faults }
        ensures idle_counts { CountsOn self.old.idle self.new.idle }

        ensures full { IfOk result (λ count. count ≡
            min (length piece.now) (min self.old.most (self.old.room - length self.old.taken))) }
        ensures ok { IfOk result (λ count. self.new.taken ≡ self.old.taken ++ take count piece.now) }
        ensures nothing { IfOk result (λ count. IsIdle count piece.now →
            Rose self.old.idle self.new.idle) }
        ensures not_idle { IfOk result (λ count. ¬ IsIdle count piece.now → self.new.idle ≡ self.old.idle) }
        ensures no_fault { OnOk result (self.new.faults ≡ self.old.faults) }
        ensures failed { OnErr result (self.new.faults ≡ next_count self.old.faults) }
        ensures kept { OnErr result (self.new.taken ≡ self.old.taken) }
        ensures failed_not_idle { OnErr result (self.new.idle ≡ self.old.idle) }
    {
        if self.writes.next_fails() {
            self.faults = self.faults.saturating_add(1);
            return Err(Failed);
        }
        let free = self.room.saturating_sub(self.bytes.len());
        let count = piece.len().min(self.most.min(free));
        if count == 0 && !piece.is_empty() {
            self.idle = self.idle.saturating_add(1);
        }
        self.bytes.extend_from_slice(&piece[..count]).unwrap();
        Ok(count)
    }
}

#[cfg(test)]
mod tests;
