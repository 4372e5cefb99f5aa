//! Restarts.

ghost use Rattle.std.specs.Prelude.{◌≡◌, ◌≤◌, All};
ghost use Rattle.cnf_base.specs.Dimacs.{IsLiteral};

use cnf_base::CnfLit;
use sat_trail::Trail;

/// So many conflicts lie between two restarts while the search is young.
const CONFLICTS_A_RESTART: u32 = 128;

/// From so many conflicts on, restarts go by the averages.
const YOUNG_CONFLICTS: u32 = 25_000;

/// So many conflicts lie between two such restarts at least.
const LEAST_CONFLICTS: u32 = 50;

/// The averages count levels in such parts.
const PARTS: u64 = 1 << 20;

/// When the search goes back to level 0. A short search restarts at a steady rate. In a long one, where learned clauses
/// have more levels of late than in the long run, it has left the part of the formula in which it learned well (Audemard
/// and Simon, 2009).
#[derive(Clone, Copy, Drop)]
pub struct Restarts {
    late: u64,
    long: u64,
    /// Since the last restart.
    conflicts: u32,
    /// From the beginning on.
    all_conflicts: u32,
}

/// An average that follows a value, the slower the greater the weight.
fn follow(average: u64, value: u64, weight: u64) -> u64 {
    if weight == 0 {
        return value;
    }
    (average - average / weight).saturating_add(value / weight)
}

impl Restarts {
    pub fn new() -> Restarts {
        Restarts {
            late: 0,
            long: 0,
            conflicts: 0,
            all_conflicts: 0,
        }
    }

    /// Whether to go back to level 0 after a learned clause with so many levels.
    fn is_due(&mut self, levels: u32) -> bool {
        let value = levels as u64 * PARTS;
        self.late = follow(self.late, value, 32);
        self.long = follow(self.long, value, 4096);
        self.conflicts = self.conflicts.saturating_add(1);
        self.all_conflicts = self.all_conflicts.saturating_add(1);
        let due = if self.all_conflicts < YOUNG_CONFLICTS {
            self.conflicts >= CONFLICTS_A_RESTART
        } else {
            self.conflicts >= LEAST_CONFLICTS && self.late / 11 > self.long / 10
        };
        if due {
            self.conflicts = 0;
        }
        due
    }

    /// The level to go back to after a learned clause: 0 for a restart, and else that of the clause.
    pub fn level_after(&mut self, levels: u32, backjump_level: u32) -> u32
        ensures { result ≤ backjump_level }
    {
        if self.is_due(levels) {
            0
        } else {
            backjump_level
        }
    }
}

/// How many levels these literals have, which are sorted by them.
pub fn count_levels(trail: &Trail, lits: &[CnfLit]) -> u32
    requires { All (IsLiteral trail.now.vars) lits.now }
{
    let mut count: u32 = 0;
    let mut last = None;
    for lit in lits {
        let level = trail.level_of(lit.var());
        if level != last {
            count = count.saturating_add(1);
            last = level;
        }
    }
    count
}
