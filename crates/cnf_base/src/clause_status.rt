//! What literals that are assumed make of a clause.

ghost use Rattle.std.specs.Prelude.{◌≡◌};
ghost use Rattle.cnf_base.specs.Status.{with_open_literal};

use crate::lit::CnfLit;

#[derive(Clone, Copy, Debug, PartialEq, Eq)]
pub enum ClauseStatus {
    /// A literal of the clause is true.
    Satisfied,
    /// All its literals are false.
    Falsified,
    /// All its literals are false but this one, which is open.
    Unit(CnfLit),
    /// None of its literals is true, and two different ones are open.
    Unresolved,
}

impl ClauseStatus {
    /// The status with one more open literal: the same one again changes nothing.
    pub fn with_open_literal(self, lit: CnfLit) -> ClauseStatus
        ensures { result ≡ with_open_literal self lit }
    {
        match self {
            ClauseStatus::Falsified => ClauseStatus::Unit(lit),
            ClauseStatus::Unit(first) => {
                if first == lit {
                    self
                } else {
                    ClauseStatus::Unresolved
                }
            }
            other => other,
        }
    }
}
