//! Random formulas, the same in each run.

ghost use Rattle.std.specs.Prelude.{◌<◌, ◌≤◌, ◌+◌};

use crate::formulas::{add, begin, no, yes};
use cnf_base::Formula;
use std::alloc::Global;
use std::process::Abort;
use std::test::Fail;

/// A linear congruential generator.
#[derive(Drop)]
struct Generator {
    state: u64,
}

impl Generator {
    fn below(&mut self, limit: u8) -> u8
        requires { 0 < limit }
        ensures { result < limit }
    {
        self.state = self
            .state
            .wrapping_mul(6_364_136_223_846_793_005)
            .wrapping_add(1_442_695_040_888_963_407);
        ((self.state >> 33) % u64::from(limit)) as u8
    }

    fn sign(&mut self, var: u8) -> i32 {
        let var = u16::from(var) + 1;
        if self.below(2) == 0 {
            yes(var)
        } else {
            no(var)
        }
    }
}

/// A place among those without one of them, as a place among all.
fn without(taken: u8, place: u8) -> u8
    requires { place < 255 }
    ensures { result ≤ place + 1 }
{
    if place < taken { place } else { place + 1 }
}

/// A clause of three different variables, of at least three.
fn random_clause(generator: &mut Generator, vars: u8) -> [i32; 3]
    requires { 3 ≤ vars }
{
    let a = generator.below(vars);
    let b = without(a, generator.below(vars - 1));
    let c = without(a.max(b), without(a.min(b), generator.below(vars - 2)));
    [generator.sign(a), generator.sign(b), generator.sign(c)]
}

/// As many clauses of three literals as leave about half of such formulas without a model: 17 for four variables.
pub fn random_formula(
    rt: &impl Abort,
    alloc: Global,
    seed: u64,
    vars: u8,
) -> Result<Formula, Fail> {
    assert!(rt; 3 <= vars);
    let mut generator = Generator { state: seed };
    let mut formula = begin(rt, alloc, u32::from(vars));
    for _ in 0..u32::from(vars) * 17 / 4 {
        let lits = random_clause(&mut generator, vars);
        add(rt, alloc, &mut formula, &lits)?;
    }
    Ok(formula)
}
