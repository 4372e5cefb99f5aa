//! What is left of a file behind its lines, where deltas stand.

ghost use Rattle.std.specs.Prelude.{◌≡◌, ◌+◌, ◌^◌, ◌<◌, ◌≤◌, length, drop, OnOk, IfOk};
ghost use Rattle.aig_ascii.specs.FirstFaults.{first_unmet, Says};
ghost use Rattle.aig_binary.specs.Deltas.{delta_value, behind_delta};
ghost use Rattle.aig_binary.specs.Sections.{delta_demands};

use crate::delta::{NoDelta, delta_at};
use crate::fault::{AigFault, AigKind};
use std::marker::Model;

/// What is left, and how long the whole file is.
#[derive(Drop)]
pub struct Bytes<'a> {
    rest: &'a [u8],
    size: usize,
}

impl<'a> Model for Bytes<'a> {
    ghost use Rattle.std.specs.Prelude.{◌-◌, ◌≤◌, length};
    ghost use Rattle.text_words.specs.Text.{Rest};

    ghost Value = { Rest };

    ghost view = { λ b. record { at = b.size - length b.rest.now; bytes = b.rest.now } };

    ghost invariant = { λ b. length b.rest.now ≤ b.size };
}

impl<'a> Bytes<'a> {
    /// What a file has from this place on.
    pub fn new(file: &'a [u8], at: u64) -> Bytes<'a>
        requires { at ≤ length file.now }
        ensures { result ≡ record { at = at; bytes = drop at file.now } }
    {
        Bytes {
            rest: &file[at as usize..],
            size: file.len(),
        }
    }

    /// The place, counted from 0.
    pub fn at(&self) -> u64
        ensures value { result ≡ self.now.at }
        ensures small { self.now.at + length self.now.bytes < 2 ^ 64 }
    {
        (self.size - self.rest.len()) as u64
    }

    pub fn rest(&self) -> &'a [u8]
        ensures { result.now ≡ self.now.bytes }
    {
        self.rest
    }

    /// The length of the whole file.
    pub fn size(&self) -> u64
        ensures { result ≡ self.now.at + length self.now.bytes }
    {
        self.size as u64
    }

    fn skip(&mut self, count: usize)
        requires { count ≤ length self.old.bytes }
        ensures { self.new ≡ record { at = self.old.at + count; bytes = drop count self.old.bytes } }
    {
        self.rest = &self.rest[count..];
    }

    /// The delta that stands here, and goes on behind it.
    pub fn delta(&mut self, least: u32, most: u32) -> Result<u32, AigFault>
        ensures demands { Says result (first_unmet (delta_demands least most self.old)) }
        ensures value { IfOk result (λ delta. delta ≡ delta_value self.old.bytes) }
        ensures within { IfOk result (λ delta. (least ≤ delta) × (delta ≤ most)) }
        ensures next { OnOk result (self.new ≡ behind_delta self.old) }
    {
        let at = self.at();
        let delta = match delta_at(self.rest) {
            Ok(delta) => delta,
            Err(NoDelta::Cut) => {
                return Err(AigFault::At {
                    at: self.size(),
                    kind: AigKind::Truncated,
                });
            }
            Err(NoDelta::Long) => {
                return Err(AigFault::At {
                    at,
                    kind: AigKind::Delta,
                });
            }
        };
        if delta.value < u64::from(least) || delta.value > u64::from(most) {
            return Err(AigFault::At {
                at,
                kind: AigKind::Delta,
            });
        }
        self.skip(delta.size);
        Ok(delta.value as u32)
    }
}
