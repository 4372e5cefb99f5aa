//! A desk over files in memory.

ghost use Rattle.std.specs.Prelude.{◌≡◌, ℕ, ◌-◌, ◌↔◌, ◌⊎◌, List, [], None, Some, length, min, position, take, drop, Contains, IsSome, IsErr, IfSome, IfOk, OnOk, OnErr};
ghost use Rattle.run_io.specs.Count.{CountsOn, next_count};
ghost use Rattle.run_io.specs.Desk.{Gives, with_open};
ghost use Rattle.run_io.specs.Numbered.{NextFails, after_call};
ghost use Rattle.run_io.specs.MemoryDesk.{text_of, has_name};

use crate::desk::{Desk, Failed};
use crate::file_text::FileText;
use crate::numbered::NumberedCalls;
use http_server::Log;
use ketch_base::OutOfMemory;
use std::alloc::Global;
use std::marker::Model;

/// Files in memory. One count of faults stands for every name.
///
/// A name is found by going through the files, of which there are few.
#[derive(Drop)]
pub struct MemoryDesk {
    files: Vec<FileText>,
    calls: NumberedCalls,
    faults: u64,
    /// Takes no memory: contracts alone see it.
    earlier: Log<Vec<u8>, usize>,
    place: Option<usize>,
    given: usize,
}

impl Model for MemoryDesk {
    ghost use Rattle.std.specs.Prelude.{IfSome, ◌<◌, length, option_map, drop};
    ghost use Rattle.std.specs.Option.{option_and_then};
    ghost use Rattle.run_io.specs.MemoryDesk.{DeskInMemory, name_at, text_at, noted_files};

    ghost Value = { DeskInMemory };

    ghost view = { λ desk. record {
      files = desk.files.items;
      calls = desk.calls;
      faults = desk.faults;
      earlier = noted_files desk.earlier.items;
      started = option_and_then (name_at desk.files.items) desk.place;
      whole = option_and_then (text_at desk.files.items) desk.place;
      left = option_map (drop desk.given) (option_and_then (text_at desk.files.items) desk.place);
      given = desk.given;
    } };

    ghost invariant = { λ desk. IfSome desk.place (λ place. place < length desk.files.items) };
}

impl MemoryDesk {
    /// Calls are numbered from 1, and those in `fails` fail. The first text of a name counts.
    pub fn new(
        alloc: Global,
        files: Vec<FileText>,
        fails: Vec<u64>,
    ) -> Result<MemoryDesk, OutOfMemory>
        ensures files { IfOk result (λ desk. desk.files ≡ files.items) }
        ensures text { IfOk result (λ desk.
            (n : List ℕ) → (⟦<MemoryDesk as Desk>⟧.state desk).text n ≡ text_of files.items n) }
        ensures failing { IfOk result (λ desk.
            (number : ℕ) → Contains desk.calls.failing number ↔ Contains fails.items number) }
        ensures made { IfOk result (λ desk. desk.calls.made ≡ 0) }
        ensures faults { IfOk result (λ desk. desk.faults ≡ 0) }
        ensures started { IfOk result (λ desk. desk.started ≡ None) }
        ensures earlier { IfOk result (λ desk. desk.earlier ≡ []) }
    {
        let calls = NumberedCalls::new(alloc, fails)?;
        Ok(MemoryDesk {
            files,
            calls,
            faults: 0,
            earlier: Log::new(),
            place: None,
            given: 0,
        })
    }

    /// Puts the open file with those that were started before it.
    fn note_open(&mut self)
        ensures { self.new ≡ record self.old {
          earlier = with_open self.old.earlier self.old.started self.old.given;
        } }
    {
        if let Some(open) = self.place {
            self.earlier = self.earlier.and(&self.files[open].name, &self.given);
        }
    }
}

impl Desk for MemoryDesk {
    ghost state = { λ desk. record {
      text = text_of desk.files;
      earlier = desk.earlier;
      started = desk.started;
      whole = desk.whole;
      left = desk.left;
      given = desk.given;
      faults = λ _. desk.faults;
    } };

    fn start_file(&mut self, name: &[u8]) -> Result<(), Failed>
        ensures fails { IsErr result ↔
            (NextFails self.old.calls ⊎ (text_of self.old.files name.now ≡ None)) }
        ensures counts { CountsOn self.old.faults self.new.faults }

        ensures ok { OnOk result (self.new ≡ record self.old {
          calls = after_call self.old.calls;
          earlier = with_open self.old.earlier self.old.started self.old.given;
          started = Some name.now;
          whole = text_of self.old.files name.now;
          left = text_of self.old.files name.now;
          given = 0;
        }) }
        ensures failed { OnErr result (self.new ≡ record self.old {
          calls = after_call self.old.calls;
          faults = next_count self.old.faults;
        }) }
    {
        if self.calls.next_fails() {
            self.faults = self.faults.saturating_add(1);
            return Err(Failed);
        }
        let Some(place) = place_of(&self.files, name) else {
            self.faults = self.faults.saturating_add(1);
            return Err(Failed);
        };
        self.note_open();
        self.place = Some(place);
        self.given = 0;
        Ok(())
    }

    fn read(&mut self, piece: &mut [u8]) -> Result<usize, Failed>
        requires { IsSome self.old.started }

        ensures fails { IsErr result ↔ NextFails self.old.calls }
        ensures counts { CountsOn self.old.faults self.new.faults }
        ensures files { self.new.files ≡ self.old.files }
        ensures started { self.new.started ≡ self.old.started }
        ensures whole { self.new.whole ≡ self.old.whole }
        ensures earlier { self.new.earlier ≡ self.old.earlier }
        ensures calls { self.new.calls ≡ after_call self.old.calls }
        ensures no_fault { OnOk result (self.new.faults ≡ self.old.faults) }
        ensures ok { IfOk result (Gives (⟦<MemoryDesk as Desk>⟧.state self.old) (⟦<MemoryDesk as Desk>⟧.state self.new) piece.new) }
        ensures full { IfOk result (λ count. IfSome self.old.left (λ bytes.
            count ≡ min (length piece.old) (length bytes))) }

        ensures failed { OnErr result (self.new ≡ record self.old {
          calls = after_call self.old.calls;
          faults = next_count self.old.faults;
        }) }
    {
        if self.calls.next_fails() {
            self.faults = self.faults.saturating_add(1);
            return Err(Failed);
        }
        let place = self.place.unwrap();
        let count = copy_front(piece, &self.files[place].bytes, self.given);
        self.given += count;
        Ok(count)
    }
}

/// Where the first file of a name stands.
fn place_of(files: &[FileText], name: &[u8]) -> Option<usize>
    ensures { result ≡ position (has_name name.now) files.now }
{
    files.iter().position(|file| file.name.as_slice() == name)
}

/// Copies what stands from a place on to the front of a piece, as much as fits.
fn copy_front(piece: &mut [u8], bytes: &[u8], at: usize) -> usize
    ensures count { result ≡ min (length piece.old) (length bytes.now - at) }
    ensures front { take result piece.new ≡ take result (drop at bytes.now) }
{
    let count = piece.len().min(bytes.len().saturating_sub(at));
    if count > 0 {
        piece[..count].copy_from_slice(&bytes[at..at + count]);
    }
    count
}

#[cfg(test)]
mod tests;
