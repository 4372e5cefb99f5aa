//! A desk over real files.

ghost use Rattle.std.specs.Prelude.{◌≡◌, ◌≤◌, [], length, None, OnSome};

use crate::desk::{Desk, Failed};
use crate::name::{NAME_ROOM, Name};
use http_server::Log;
use std::fs::File;
use std::io::Read;
use std::marker::Model;
use std::rt::Files;
use std::snapshot::Snapshot;

/// Real files. One count of faults stands for every name.
///
/// A name of more than 4,096 bytes, or one that isn't UTF-8, is a fault.
#[derive(Drop)]
pub struct HostDesk<'r, R: Files> {
    files: &'r R,
    file: Option<R::File>,
    /// The file as it was when it was opened. Takes no memory: contracts alone see it.
    opened: Option<Snapshot<R::File>>,
    name: Name,
    given: u64,
    /// Takes no memory: contracts alone see it.
    earlier: Log<Name, u64>,
    faults: u64,
}

impl<'r, R: Files> Model for HostDesk<'r, R> {
    ghost use Rattle.std.specs.Prelude.{if◌then◌else◌, is_some, Some, None};
    ghost use Rattle.std.specs.Option.{option_and_then};
    ghost use Rattle.run_io.specs.Host.{DeskOnHost};

    ghost Value = { DeskOnHost };

    ghost view = { λ desk. record {
      earlier = desk.earlier.items;
      started = if is_some desk.file then Some desk.name else None;
      whole = option_and_then (λ opened. R.File.remaining opened.value) desk.opened;
      left = option_and_then R.File.remaining desk.file;
      given = desk.given;
      faults = desk.faults;
    } };
}

impl<'r, R: Files> HostDesk<'r, R> {
    pub fn new(files: &'r R) -> HostDesk<'r, R>
        ensures { result ≡ record { earlier = []; started = None; whole = None; left = None; given = 0; faults = 0 } }
    {
        HostDesk {
            files,
            file: None,
            opened: None,
            name: Name::new(),
            given: 0,
            earlier: Log::new(),
            faults: 0,
        }
    }
}

impl<'r, R: Files> Desk for HostDesk<'r, R> {
    ghost use Rattle.std.specs.Prelude.{None};

    ghost state = { λ desk. record {
      text = λ _. None;
      earlier = desk.earlier;
      started = desk.started;
      whole = desk.whole;
      left = desk.left;
      given = desk.given;
      faults = λ _. desk.faults;
    } };

    fn start_file(&mut self, name: &[u8]) -> Result<(), Failed> {
        let Some(file) = opened(self.files, name) else {
            self.faults = self.faults.saturating_add(1);
            return Err(Failed);
        };
        if self.file.is_some() {
            self.earlier = self.earlier.and(&self.name, &self.given);
        }
        self.opened = Some(Snapshot::of(&file));
        self.file = Some(file);
        self.name.set(name);
        self.given = 0;
        Ok(())
    }

    fn read(&mut self, piece: &mut [u8]) -> Result<usize, Failed> {
        if let Some(file) = &mut self.file {
            if let Ok(count) = file.read(piece) {
                self.given += count as u64;
                return Ok(count);
            }
        }
        self.faults = self.faults.saturating_add(1);
        Err(Failed)
    }
}

fn opened<R: Files>(files: &R, name: &[u8]) -> Option<R::File>
    ensures { OnSome result (length name.now ≤ NAME_ROOM) }
{
    if name.len() > NAME_ROOM {
        return None;
    }
    let path = str::from_utf8(name).ok()?;
    File::open(files, path).ok()
}

#[cfg(test)]
mod tests;
