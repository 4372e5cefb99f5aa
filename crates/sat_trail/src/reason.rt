//! Reasons, to and from the form in which they are kept.

ghost use Rattle.std.specs.Prelude.{◌≡◌, Some, None};
ghost use Rattle.sat_trail.specs.Kept.{reason_of_cause};

use crate::cause::{Cause, Kind};
use crate::clause_id::ClauseId;

pub fn decided(level: u32) -> Cause
    ensures reason { reason_of_cause result ≡ None }
    ensures level { result.level ≡ level }
{
    Cause {
        number: 0,
        level,
        kind: Kind::Decision,
    }
}

pub fn assumed(level: u32, reason: ClauseId) -> Cause
    ensures reason { reason_of_cause result ≡ Some reason }
    ensures level { result.level ≡ level }
{
    match reason {
        ClauseId::Book(number) => Cause {
            number,
            level,
            kind: Kind::FromBook,
        },
        ClauseId::Unit(number) => Cause {
            number,
            level,
            kind: Kind::FromUnit,
        },
    }
}

pub fn reason(cause: Cause) -> Option<ClauseId>
    ensures { result ≡ reason_of_cause cause }
{
    match cause.kind {
        Kind::Decision => None,
        Kind::FromBook => Some(ClauseId::Book(cause.number)),
        Kind::FromUnit => Some(ClauseId::Unit(cause.number)),
    }
}
