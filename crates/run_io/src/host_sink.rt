//! A sink over a real stream.

ghost use Rattle.std.specs.Prelude.{◌≡◌};

use crate::desk::Failed;
use crate::sink::Sink;
use std::io::Write;
use std::marker::Model;

/// Hands what it is given on to a writer, and counts what fails.
///
/// An `Ok` says that the writer took the bytes: give it one without a buffer of its own, as
/// standard output or a file.
#[derive(Drop)]
pub struct HostSink<W: Write> {
    writer: W,
    faults: u64,
    idle: u64,
}

impl<W: Write> Model for HostSink<W> {
    ghost use Rattle.run_io.specs.Host.{SinkOnHost};

    ghost Value = { SinkOnHost };

    ghost view = { λ sink. record {
      contents = W.contents sink.writer;
      faults = sink.faults;
      idle = sink.idle;
    } };
}

impl<W: Write> HostSink<W> {
    pub fn new(writer: W) -> HostSink<W>
        ensures { result ≡ record { contents = W.contents writer; faults = 0; idle = 0 } }
    {
        HostSink {
            writer,
            faults: 0,
            idle: 0,
        }
    }
}

impl<W: Write> Sink for HostSink<W> {
    ghost state = { λ sink. record { taken = sink.contents; faults = sink.faults; idle = sink.idle } };

    fn write(&mut self, piece: &[u8]) -> Result<usize, Failed> {
        let Ok(count) = self.writer.write(piece) else {
            self.faults = self.faults.saturating_add(1);
            return Err(Failed);
        };
        if count == 0 && !piece.is_empty() {
            self.idle = self.idle.saturating_add(1);
        }
        Ok(count)
    }
}

#[cfg(test)]
mod tests;
