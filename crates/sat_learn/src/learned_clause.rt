//! The clause that is learned from a conflict.

ghost use Rattle.std.specs.Prelude.{◌≡◌, reverse};

use cnf_base::CnfLit;
use lrat_text::Hints;
use std::marker::Model;

/// A clause, the level to go back to, the hints by which the clause follows, which literals of level 0 they resolve, and
/// which literals above level 0 the analysis met.
#[derive(Debug, Drop)]
pub struct LearnedClause {
    lits: Vec<CnfLit>,
    backjump_level: u32,
    hints: Hints,
    roots: Vec<u32>,
    met: Vec<CnfLit>,
}

impl Model for LearnedClause {
    ghost use Rattle.sat_learn.specs.Learned.{LearnedState};

    ghost Value = { LearnedState };

    ghost view = { λ l. record { lits = l.lits.items; backjump_level = l.backjump_level; hints = l.hints; roots = l.roots.items; met = l.met.items } };
}

/// The hints come from the last to the first.
pub fn new_learned(
    lits: Vec<CnfLit>,
    backjump_level: u32,
    hints: Vec<i64>,
    roots: Vec<u32>,
    met: Vec<CnfLit>,
) -> LearnedClause
    ensures { result ≡ record { lits = lits.items; backjump_level = backjump_level; hints = reverse hints.items; roots = roots.items; met = met.items } }
{
    LearnedClause {
        lits,
        backjump_level,
        hints: in_order(hints),
        roots,
        met,
    }
}

/// Hints that come from the last to the first, in their order.
pub fn in_order(hints: Vec<i64>) -> Hints
    ensures { result ≡ reverse hints.items }
{
    let mut hints = hints;
    hints.reverse();
    Hints::from_vec(hints)
}

impl LearnedClause {
    pub fn lits(&self) -> &[CnfLit]
        ensures { result.now ≡ self.now.lits }
    {
        self.lits.as_slice()
    }

    pub fn backjump_level(&self) -> u32
        ensures { result ≡ self.now.backjump_level }
    {
        self.backjump_level
    }

    /// The places of the literals of level 0 that the hints resolve, from the last to the first.
    pub fn roots(&self) -> &[u32]
        ensures { result.now ≡ self.now.roots }
    {
        self.roots.as_slice()
    }

    /// The literals above level 0 that the analysis met: of each variable one, those of the clause that is false and of the
    /// reasons that were resolved until one literal of the present level was left.
    pub fn met(&self) -> &[CnfLit]
        ensures { result.now ≡ self.now.met }
    {
        self.met.as_slice()
    }

    pub fn into_hints(self) -> Hints
        ensures { result ≡ self.hints }
    {
        self.hints
    }
}
