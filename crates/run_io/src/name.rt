//! The name of a file, kept without memory of the heap.

ghost use Rattle.std.specs.Prelude.{◌≡◌, ◌≤◌, [], length};

use std::marker::Model;

/// How many bytes a name may have.
pub(crate) const NAME_ROOM: usize = 4096;

#[derive(Drop)]
pub(crate) struct Name {
    bytes: [u8; NAME_ROOM],
    len: usize,
}

impl Model for Name {
    ghost use Rattle.std.specs.Prelude.{List, ℕ, take};

    ghost Value = { List ℕ };

    ghost view = { λ name. take name.len name.bytes };
}

impl Name {
    pub(crate) fn new() -> Name
        ensures { result ≡ [] }
    {
        Name {
            bytes: [0; NAME_ROOM],
            len: 0,
        }
    }

    pub(crate) fn set(&mut self, name: &[u8])
        requires { length name.now ≤ NAME_ROOM }
        ensures { self.new ≡ name.now }
    {
        self.bytes[..name.len()].copy_from_slice(name);
        self.len = name.len();
    }
}
