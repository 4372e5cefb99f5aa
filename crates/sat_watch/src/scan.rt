//! Answers of propagation.

ghost use Rattle.std.specs.Prelude.{◌≡◌, ◌↔◌, IsTrue};

use sat_trail::ClauseId;

#[derive(Clone, Copy, Debug, PartialEq, Eq)]
pub enum Scan {
    /// No clause is false, and none is unit.
    Quiet,
    /// This clause is false.
    Conflict(ClauseId),
}

pub fn is_quiet(scan: Scan) -> bool
    ensures { IsTrue result ↔ (scan ≡ Scan.Quiet) }
{
    match scan {
        Scan::Quiet => true,
        Scan::Conflict(_) => false,
    }
}
