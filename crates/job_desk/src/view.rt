//! What the rule of the desk speaks of beside its word.

ghost use Rattle.std.specs.Prelude.{ℕ, List, Option};
ghost use Rattle.std.specs.Borrow.{ftrue};
ghost use Rattle.job_desk.specs.Draws.{Draw};

use std::marker::Model;

// What a seat knows. No value of it is made.
pub struct View {
    // How many callers it stands for. With none it is spent.
    pub ghost parts: { ℕ },
    // The caller's number, and how many callers were made so far: only the seat that makes them knows it, else it is 0.
    pub ghost caller: { ℕ },
    pub ghost made: { ℕ },
    // The numbers that were drawn by it and by the seats that it took in.
    pub ghost drawn: { List Draw },
    // Above each number that its caller drew, and the one of them at or above `jobs`, if any.
    pub ghost front: { ℕ },
    pub ghost over: { Option ℕ },
    // How many numbers at or above `jobs` its callers may still draw.
    pub ghost spare: { ℕ },
    // The desk's terms.
    pub ghost jobs: { ℕ },
    pub ghost callers: { ℕ },
}

impl Model for View {
    ghost also_owns = { λ _. ftrue };
}

// What the rule is told when the desk is made.
#[derive(Drop)]
pub struct Terms {
    pub jobs: u64,
    pub callers: u64,
}
