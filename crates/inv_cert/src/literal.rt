//! The literals of clauses over latches.

ghost use Rattle.std.specs.Prelude.{◌≡◌, ◌<◌, ◌≢◌, length, pos};
ghost use Rattle.aig_model.specs.LatchClauses.{latch_literal_value};
ghost use Rattle.inv_cert.specs.Literals.{latch_of, is_negated};

use aig_model::Bits;

/// The latch that a literal names.
pub(crate) fn latch_of(lit: i32) -> usize
    requires { lit ≢ pos 0 }
    ensures { result ≡ latch_of lit }
{
    lit.unsigned_abs() as usize - 1
}

/// The literal is false where its latch has this value.
pub(crate) fn is_negated(lit: i32) -> bool
    ensures { result ≡ is_negated lit }
{
    lit < 0
}

/// The literal's value in a state.
pub(crate) fn literal_value(state: &Bits, lit: i32) -> bool
    requires latch { lit ≢ pos 0 }
    requires inside { latch_of lit < length state.now }
    ensures { result ≡ latch_literal_value state.now lit }
{
    let value = state.get(latch_of(lit));
    if lit > 0 { value } else { !value }
}
