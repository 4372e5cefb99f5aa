//! One step of all lanes.

ghost use Rattle.std.specs.Prelude.{◌≡◌, ◌^◌, length, OnOk};
ghost use Rattle.sim_lanes.specs.LaneValues.{AreBlank};
ghost use Rattle.sim_lanes.specs.Lanes.{AreSized, LanesStepOn};

use crate::goals::note_goals;
use crate::lanes::LaneWords;
use crate::masks::{hand_on, keep, legal_lanes, note_deaths};
use crate::values::{both, evaluate, signed};
use aig_model::{Circuit, Signals};
use ketch_base::OutOfMemory;
use sim_walk::FirstVisits;

/// Moves all lanes on by one step, whose row of inputs is in these words.
pub(crate) fn step_lanes(
    circuit: &Circuit,
    signals: &Signals,
    lanes: &mut LaneWords,
    values: &mut [u64],
    words: &[u64],
    step: u32,
    visits: &mut FirstVisits,
) -> Result<(), OutOfMemory>
    requires signals { signals.now.circuit ≡ circuit.now }
    requires words { length words.now ≡ length circuit.now.inputs }
    requires blank { AreBlank circuit.now values.old }
    requires sized { AreSized circuit.now signals.now.lits lanes.old }
    requires goals { visits.old.goals ≡ 2 ^ length signals.now.lits }
    ensures blank { AreBlank circuit.now values.new }
    ensures sized { AreSized circuit.now signals.now.lits lanes.new }
    ensures goals { visits.new.goals ≡ visits.old.goals }
    ensures steps { OnOk result (LanesStepOn circuit.now signals.now.lits words.now step lanes.old lanes.new visits.old.visits visits.new.visits) }
{
    circuit.is_well_formed();
    evaluate(circuit, values, lanes.state.as_slice(), words);
    let old = lanes.live;
    let legal = legal_lanes(circuit, values);
    let live = both(old, legal);
    let dead = signed(live, true);
    let dying = both(old, dead);
    lanes.live = live;
    note_deaths(lanes.died.as_mut_slice(), dying, step);
    keep(lanes.before.as_mut_slice(), lanes.state.as_slice(), live);
    hand_on(
        lanes.state.as_mut_slice(),
        circuit.latches().as_slice(),
        values,
        live,
    );
    note_goals(
        circuit,
        signals,
        values,
        live,
        step,
        lanes.seen.as_mut_slice(),
        visits,
    )?;
    Ok(())
}
