//! Lanes told apart by masks.

ghost use Rattle.std.specs.Prelude.{◌≡◌, ◌+◌, ◌<◌, length, All};
ghost use Rattle.aig_model.specs.Literal.{var};
ghost use Rattle.aig_model.specs.WellFormed.{next_lits};
ghost use Rattle.sim_lanes.specs.LaneValues.{AreChosen, AreLanesOf, AreLegalLanes, AreTrueLanes, HandsOn, Keeps, NotesStep, lane_goal};

use crate::values::{both, signed, value};
use aig_model::{Circuit, Latch, Lit, Signals};
use sim_batch::lane_bit;

fn true_lanes(values: &[u64], lits: &[Lit]) -> u64
    requires { All (λ lit. var lit < length values.now) lits.now }
    ensures { AreTrueLanes values.now lits.now result }
{
    let mut mask = u64::MAX;
    for place in 0..lits.len() {
        let word = value(values, lits[place]);
        mask = both(mask, word);
    }
    mask
}

/// The lanes in which every constraint is true.
pub(crate) fn legal_lanes(circuit: &Circuit, values: &[u64]) -> u64
    requires { length values.now ≡ circuit.now.top + 1 }
    ensures { AreLegalLanes circuit.now values.now result }
{
    circuit.is_well_formed();
    true_lanes(values, circuit.constraints().as_slice())
}

/// A goal, and lanes that show it.
#[derive(Clone, Copy)]
pub struct GoalLanes {
    pub goal: u32,
    pub lanes: u64,
}

/// The goal of a lane, and the lanes among these that show it.
pub(crate) fn lanes_of_goal(signals: &Signals, values: &[u64], among: u64, lane: u32) -> GoalLanes
    requires size { length values.now ≡ signals.now.circuit.top + 1 }
    requires lane { lane < 64 }
    ensures goal { result.goal ≡ lane_goal signals.now.lits values.now lane }
    ensures lanes { AreLanesOf signals.now.lits values.now among result.goal result.lanes }
{
    let lits = signals.lits();
    let mut goal = 0;
    let mut lanes = among;
    for place in (0..lits.len()).rev() {
        let word = value(values, *lits.get(place));
        let bit = lane_bit(word, lane);
        goal = 2 * goal + u32::from(bit);
        let agreeing = signed(word, !bit);
        lanes = both(lanes, agreeing);
    }
    GoalLanes { goal, lanes }
}

fn choose(mask: u64, on: u64, off: u64) -> u64
    ensures { AreChosen mask on off result }
{
    (on & mask) | (off & !mask)
}

/// Moves the lanes of a mask on to the next state.
pub(crate) fn hand_on(state: &mut [u64], latches: &[Latch], values: &[u64], live: u64)
    requires size { length state.old ≡ length latches.now }
    requires next { All (λ lit. var lit < length values.now) (next_lits latches.now) }
    ensures { HandsOn latches.now values.now live state.old state.new }
{
    for place in 0..latches.len() {
        let latch = &latches[place];
        let next = value(values, latch.next);
        state[place] = choose(live, next, state[place]);
    }
}

/// Keeps the states of the lanes of a mask.
pub(crate) fn keep(kept: &mut [u64], state: &[u64], live: u64)
    requires { length kept.old ≡ length state.now }
    ensures { Keeps state.now live kept.old kept.new }
{
    for place in 0..state.len() {
        kept[place] = choose(live, state[place], kept[place]);
    }
}

/// Notes the step at which the lanes of a mask died.
pub(crate) fn note_deaths(died: &mut [u32], dying: u64, step: u32)
    requires { length died.old ≡ 64 }
    ensures { NotesStep dying step died.old died.new }
{
    if dying == 0 {
        return;
    }
    for place in 0..died.len() {
        if lane_bit(dying, place as u32) {
            died[place] = step;
        }
    }
}
