//! States that are reached from reset, each with the way there.

ghost use Rattle.std.specs.Prelude.{◌≡◌, ◌++◌, ◌≤◌, length, option_copied, IfOk};
ghost use Rattle.sim_batch.specs.Seeds.{AreSeeds, IsSeed, ShowsSome, LeadsTo, rows_before_last};

use crate::copies::{append_rows, copy_bits};
use aig_eval::{next_state, step_values};
use aig_model::{Bits, Circuit, Rows, Trace};
use ketch_base::OutOfMemory;
use std::alloc::Global;
use std::marker::Model;
use std::snapshot::Snapshot;

/// A state of a circuit, with a reset state and the rows of inputs that lead from there to it.
#[derive(Drop)]
pub struct Seed {
    start: Bits,
    rows: Rows,
    state: Bits,
    circuit: Snapshot<Circuit>,
}

impl Model for Seed {
    ghost use Rattle.sim_batch.specs.Seeds.{SeedState, IsSeed};

    ghost Value = { SeedState };

    ghost view = { λ s. record { circuit = s.circuit.value; start = s.start; rows = s.rows; state = s.state } };

    ghost invariant = { λ s. IsSeed s.circuit.value s.start s.rows s.state };
}

impl Seed {
    /// The state at a trace's last step, with the rows before that step.
    pub fn from_reached(
        alloc: Global,
        circuit: &Circuit,
        trace: &Trace,
    ) -> Result<Seed, OutOfMemory>
        requires { ShowsSome circuit.now trace.now }
        ensures circuit { IfOk result (λ seed. seed.circuit ≡ circuit.now) }
        ensures start { IfOk result (λ seed. seed.start ≡ trace.now.start) }
        ensures rows { IfOk result (λ seed. seed.rows ≡ rows_before_last trace.now) }
    {
        let last = trace.rows.len() - 1;
        let start = copy_bits(alloc, &trace.start)?;
        let mut rows = Rows::new(alloc, trace.rows.width());
        append_rows(alloc, &mut rows, &trace.rows, last)?;
        let state = state_after(alloc, circuit, trace, last)?;
        Ok(Seed {
            start,
            rows,
            state,
            circuit: Snapshot::of(circuit),
        })
    }

    /// The seed of a way to a state.
    pub(crate) fn of_way(circuit: &Circuit, way: Trace, state: Bits) -> Seed
        requires { IsSeed circuit.now way.start way.rows state }
        ensures circuit { result.circuit ≡ circuit.now }
        ensures start { result.start ≡ way.start }
        ensures rows { result.rows ≡ way.rows }
        ensures state { result.state ≡ state }
    {
        Seed {
            start: way.start,
            rows: way.rows,
            state,
            circuit: Snapshot::of(circuit),
        }
    }

    /// Says that the rows lead from the start, a reset state, to the state.
    pub fn is_well_formed(&self)
        ensures { IsSeed self.now.circuit self.now.start self.now.rows self.now.state }
    {
        let _ = &self.state;
    }

    pub fn start(&self) -> &Bits
        ensures { result.now ≡ self.now.start }
    {
        &self.start
    }

    pub fn rows(&self) -> &Rows
        ensures { result.now ≡ self.now.rows }
    {
        &self.rows
    }

    pub fn state(&self) -> &Bits
        ensures { result.now ≡ self.now.state }
    {
        &self.state
    }

    /// The seed's start, with its rows followed by these.
    pub fn extend(&self, alloc: Global, rows: &Rows) -> Result<Trace, OutOfMemory>
        requires { rows.now.width ≡ length self.now.circuit.inputs }
        ensures start { IfOk result (λ trace. trace.start ≡ self.now.start) }
        ensures width { IfOk result (λ trace. trace.rows.width ≡ self.now.rows.width) }
        ensures rows { IfOk result (λ trace. trace.rows.rows ≡ self.now.rows.rows ++ rows.now.rows) }
    {
        let start = copy_bits(alloc, &self.start)?;
        let mut all = Rows::new(alloc, self.rows.width());
        append_rows(alloc, &mut all, &self.rows, self.rows.len())?;
        append_rows(alloc, &mut all, rows, rows.len())?;
        Ok(Trace { start, rows: all })
    }

    /// An equal seed; the circuit is the seed's own.
    pub fn copy(&self, alloc: Global, circuit: &Circuit) -> Result<Seed, OutOfMemory>
        requires { self.now.circuit ≡ circuit.now }
        ensures { IfOk result (λ seed. seed ≡ self.now) }
    {
        let start = copy_bits(alloc, &self.start)?;
        let mut rows = Rows::new(alloc, self.rows.width());
        append_rows(alloc, &mut rows, &self.rows, self.rows.len())?;
        let state = copy_bits(alloc, &self.state)?;
        Ok(Seed {
            start,
            rows,
            state,
            circuit: Snapshot::of(circuit),
        })
    }
}

/// Says what the type of a seed keeps.
pub fn are_seeds(from: Option<&Seed>)
    ensures { AreSeeds (option_copied from.entry) }
{
    if let Some(seed) = from {
        let _ = &seed.state;
    }
}

/// The state that a trace's first `count` rows lead to from its start.
fn state_after(
    alloc: Global,
    circuit: &Circuit,
    trace: &Trace,
    count: usize,
) -> Result<Bits, OutOfMemory>
    requires start { length trace.now.start ≡ length circuit.now.latches }
    requires width { trace.now.rows.width ≡ length circuit.now.inputs }
    requires count { count ≤ length trace.now.rows.rows }
    ensures { IfOk result (LeadsTo circuit.now trace.now count) }
{
    circuit.is_well_formed();
    let mut state = copy_bits(alloc, &trace.start)?;
    for step in 0..count {
        let row = trace.rows.get(alloc, step)?;
        let values = step_values(alloc, circuit, &state, &row)?;
        state = next_state(alloc, circuit, &values)?;
    }
    Ok(state)
}
