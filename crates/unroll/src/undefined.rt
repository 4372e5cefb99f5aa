//! The variables that nothing defines.

ghost use Rattle.std.specs.Prelude.{◌≡◌, ◌+◌, ◌<◌, ◌++◌, All, length, map, IfOk};
ghost use Rattle.aig_model.specs.Literal.{var};
ghost use Rattle.aig_model.specs.WellFormed.{definers, latch_lits, left_sides};
ghost use Rattle.aig_model.specs.Marks.{HaveRoom, Marks};
ghost use Rattle.unroll.specs.Building.{MarksMore};
ghost use Rattle.unroll.specs.Frames.{undefined_vars};

use aig_model::{AndGate, Bits, Circuit, Latch, Lit};
use ketch_base::OutOfMemory;
use std::alloc::Global;

fn mark_lits(marks: &mut Bits, lits: &[Lit])
    requires { HaveRoom marks.old lits.now }
    ensures { MarksMore marks.old marks.new lits.now }
{
    for lit in lits {
        marks.set(lit.var() as usize, true);
    }
}

fn mark_latches(marks: &mut Bits, latches: &[Latch])
    requires { HaveRoom marks.old (latch_lits latches.now) }
    ensures { MarksMore marks.old marks.new (latch_lits latches.now) }
{
    for latch in latches {
        marks.set(latch.lit.var() as usize, true);
    }
}

fn mark_gates(marks: &mut Bits, gates: &[AndGate])
    requires { HaveRoom marks.old (left_sides gates.now) }
    ensures { MarksMore marks.old marks.new (left_sides gates.now) }
{
    for gate in gates {
        marks.set(gate.lhs.var() as usize, true);
    }
}

/// The variables that something defines, marked.
fn defined(alloc: Global, circuit: &Circuit) -> Result<Bits, OutOfMemory>
    ensures size { IfOk result (λ marks. length marks ≡ circuit.now.top + 1) }
    ensures marks { IfOk result (λ marks. Marks marks (definers circuit.now)) }
{
    circuit.is_well_formed();
    let mut marks = Bits::all_false(alloc, circuit.top() as usize + 1)?;
    mark_lits(&mut marks, circuit.inputs().as_slice());
    mark_latches(&mut marks, circuit.latches().as_slice());
    mark_gates(&mut marks, circuit.gates().as_slice());
    Ok(marks)
}

/// In rising order, from 1 on.
pub(crate) fn undefined_vars(alloc: Global, circuit: &Circuit) -> Result<Vec<u32>, OutOfMemory>
    ensures { IfOk result (λ vars. vars.items ≡ undefined_vars circuit.now) }
{
    circuit.is_well_formed();
    let marks = defined(alloc, circuit)?;
    let mut vars = Vec::new(alloc);
    for var in 1..circuit.top() + 1 {
        if !marks.get(var as usize) {
            vars.push(var)?;
        }
    }
    Ok(vars)
}
