//! All values of one step.

ghost use Rattle.std.specs.Prelude.{◌≡◌, ◌<◌, length, map, IfOk};
ghost use Rattle.aig_model.specs.Literal.{var, value_of};
ghost use Rattle.aig_model.specs.WellFormed.{latch_lits};
ghost use Rattle.aig_model.specs.Meaning.{IsStep};
ghost use Rattle.aig_eval.specs.Filling.{AreAssignable, AreSolvable, Assigns, IsInside, Solves, conjunction};

use aig_model::{AndGate, Bits, Circuit, Gates, Latches, Lit, Lits};
use ketch_base::OutOfMemory;
use std::alloc::Global;

pub(crate) fn value(values: &Bits, lit: Lit) -> bool
    requires { var lit < length values.now }
    ensures { result ≡ value_of values.now lit }
{
    values.get(lit.var() as usize) != lit.is_negated()
}

fn both(values: &Bits, gate: &AndGate) -> bool
    requires { IsInside (length values.now) gate.now }
    ensures { result ≡ conjunction values.now gate.now }
{
    value(values, gate.left) && value(values, gate.right)
}

fn assign(values: &mut Bits, lits: &Lits, bits: &Bits)
    requires lits { AreAssignable (length values.old) lits.now }
    requires bits { length bits.now ≡ length lits.now }
    ensures { Assigns lits.now bits.now values.old values.new }
{
    for place in 0..lits.len() {
        values.set(lits.get(place).var() as usize, bits.get(place));
    }
}

fn assign_latches(values: &mut Bits, latches: &Latches, bits: &Bits)
    requires lits { AreAssignable (length values.old) (latch_lits latches.now) }
    requires bits { length bits.now ≡ length latches.now }
    ensures { Assigns (latch_lits latches.now) bits.now values.old values.new }
{
    for place in 0..latches.len() {
        values.set(latches.get(place).lit.var() as usize, bits.get(place));
    }
}

fn solve(values: &mut Bits, gates: &Gates)
    requires { AreSolvable (length values.old) gates.now }
    ensures { Solves gates.now values.old values.new }
{
    for place in 0..gates.len() {
        let gate = gates.get(place);
        let bit = both(values, gate);
        values.set(gate.lhs.var() as usize, bit);
    }
}

/// The values of all variables where the latches hold `state` and the inputs are `row`.
pub fn step_values(
    alloc: Global,
    circuit: &Circuit,
    state: &Bits,
    row: &Bits,
) -> Result<Bits, OutOfMemory>
    requires state { length state.now ≡ length circuit.now.latches }
    requires row { length row.now ≡ length circuit.now.inputs }
    ensures { IfOk result (IsStep circuit.now state.now row.now) }
{
    let mut values = Bits::all_false(alloc, circuit.top() as usize + 1)?;
    assign(&mut values, circuit.inputs(), row);
    assign_latches(&mut values, circuit.latches(), state);
    solve(&mut values, circuit.gates());
    Ok(values)
}
