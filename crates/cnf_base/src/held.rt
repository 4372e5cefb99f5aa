//! How a clause keeps its literals: up to three in place, so that a short clause takes 16 bytes.

ghost use Rattle.std.specs.Prelude.{◌≡◌, ◌++◌, ◌∷◌, [], IfOk};
ghost use Rattle.cnf_base.specs.Held.{lits_of};

use crate::lit::CnfLit;
use ketch_base::OutOfMemory;
use std::alloc::Global;

#[derive(Debug, Drop)]
pub enum Held {
    None,
    One([CnfLit; 1]),
    Two([CnfLit; 2]),
    Three([CnfLit; 3]),
    Many(Box<Vec<CnfLit>>),
}

pub fn as_slice(held: &Held) -> &[CnfLit]
    ensures { result.now ≡ lits_of held.now }
{
    match held {
        Held::None => &[],
        Held::One(lits) => lits,
        Held::Two(lits) => lits,
        Held::Three(lits) => lits,
        Held::Many(lits) => lits.as_slice(),
    }
}

pub fn from_slice(alloc: Global, lits: &[CnfLit]) -> Result<Held, OutOfMemory>
    ensures { IfOk result (λ held. lits_of held ≡ lits.now) }
{
    Ok(match lits {
        [] => Held::None,
        [a] => Held::One([*a]),
        [a, b] => Held::Two([*a, *b]),
        [a, b, c] => Held::Three([*a, *b, *c]),
        _ => Held::Many(Box::new(alloc, Vec::from_slice(alloc, lits)?)?),
    })
}

/// The literals and one more.
pub fn with_one_more(alloc: Global, held: &Held, lit: CnfLit) -> Result<Held, OutOfMemory>
    ensures { IfOk result (λ more. lits_of more ≡ lits_of held.now ++ lit ∷ []) }
{
    Ok(match held {
        Held::None => Held::One([lit]),
        Held::One([a]) => Held::Two([*a, lit]),
        Held::Two([a, b]) => Held::Three([*a, *b, lit]),
        Held::Three(lits) => many(alloc, lits, lit)?,
        Held::Many(lits) => many(alloc, lits.as_slice(), lit)?,
    })
}

/// Literals and one more, in memory of their own.
fn many(alloc: Global, lits: &[CnfLit], lit: CnfLit) -> Result<Held, OutOfMemory>
    ensures { IfOk result (λ more. lits_of more ≡ lits.now ++ lit ∷ []) }
{
    let mut more = Vec::from_slice(alloc, lits)?;
    more.push(lit)?;
    Ok(Held::Many(Box::new(alloc, more)?))
}
