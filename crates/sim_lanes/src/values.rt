//! The values of a circuit's variables in 64 lanes, a word a variable.

ghost use Rattle.std.specs.Prelude.{◌≡◌, ◌+◌, ◌<◌, length};
ghost use Rattle.aig_model.specs.Literal.{var};
ghost use Rattle.aig_model.specs.WellFormed.{latch_lits};
ghost use Rattle.aig_eval.specs.Filling.{AreAssignable, AreSolvable, IsInside};
ghost use Rattle.sim_lanes.specs.LaneValues.{AreBlank, AreBoth, AreSteps, AssignsLanes, HasConjunctions, HasValues, IsSigned, SolvesLanes};

use aig_model::{AndGate, Circuit, Latch, Lit};

/// The word, negated in each lane or not.
pub(crate) fn signed(word: u64, negated: bool) -> u64
    ensures { IsSigned word negated result }
{
    if negated { !word } else { word }
}

pub(crate) fn both(left: u64, right: u64) -> u64
    ensures { AreBoth left right result }
{
    left & right
}

pub(crate) fn value(values: &[u64], lit: Lit) -> u64
    requires { var lit < length values.now }
    ensures { HasValues values.now lit result }
{
    signed(values[lit.var() as usize], lit.is_negated())
}

fn conjunction(values: &[u64], gate: &AndGate) -> u64
    requires { IsInside (length values.now) gate.now }
    ensures { HasConjunctions values.now gate.now result }
{
    let left = value(values, gate.left);
    let right = value(values, gate.right);
    both(left, right)
}

fn assign(values: &mut [u64], lits: &[Lit], words: &[u64])
    requires lits { AreAssignable (length values.old) lits.now }
    requires words { length words.now ≡ length lits.now }
    ensures { AssignsLanes lits.now words.now values.old values.new }
{
    for place in 0..lits.len() {
        values[lits[place].var() as usize] = words[place];
    }
}

fn assign_latches(values: &mut [u64], latches: &[Latch], words: &[u64])
    requires lits { AreAssignable (length values.old) (latch_lits latches.now) }
    requires words { length words.now ≡ length latches.now }
    ensures { AssignsLanes (latch_lits latches.now) words.now values.old values.new }
{
    for place in 0..latches.len() {
        let latch = &latches[place];
        values[latch.lit.var() as usize] = words[place];
    }
}

fn solve(values: &mut [u64], gates: &[AndGate])
    requires { AreSolvable (length values.old) gates.now }
    ensures { SolvesLanes gates.now values.old values.new }
{
    for place in 0..gates.len() {
        let gate = &gates[place];
        let word = conjunction(values, gate);
        values[gate.lhs.var() as usize] = word;
    }
}

/// Gives the values of a step, in each lane, of the lane's state and row of inputs.
pub(crate) fn evaluate(circuit: &Circuit, values: &mut [u64], state: &[u64], row: &[u64])
    requires blank { AreBlank circuit.now values.old }
    requires state { length state.now ≡ length circuit.now.latches }
    requires row { length row.now ≡ length circuit.now.inputs }
    ensures blank { AreBlank circuit.now values.new }
    ensures steps { AreSteps circuit.now state.now row.now values.new }
{
    circuit.is_well_formed();
    assign(values, circuit.inputs().as_slice(), row);
    assign_latches(values, circuit.latches().as_slice(), state);
    solve(values, circuit.gates().as_slice());
}
