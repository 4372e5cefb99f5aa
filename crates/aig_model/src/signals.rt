//! The signals whose combinations of values are the goals.

ghost use Rattle.std.specs.Prelude.{◌≡◌, ◌^◌, length};
ghost use Rattle.aig_model.specs.SignalList.{IsSignals};

use crate::circuit::Circuit;
use crate::parts::Lits;
use std::marker::Model;
use std::snapshot::Snapshot;

/// One to ten literals of a circuit; signal k has the weight 2^k in a goal's number.
#[derive(Drop)]
pub struct Signals {
    lits: Lits,
    circuit: Snapshot<Circuit>,
}

impl Model for Signals {
    ghost use Rattle.aig_model.specs.SignalList.{SignalList, IsSignals};

    ghost Value = { SignalList };

    ghost view = { λ s. record { circuit = s.circuit.value; lits = s.lits } };

    ghost invariant = { λ s. IsSignals s.circuit.value s.lits };
}

impl Signals {
    /// Takes no memory.
    pub fn new(lits: Lits, circuit: &Circuit) -> Signals
        requires { IsSignals circuit.now lits }
        ensures { result ≡ record { circuit = circuit.now; lits = lits } }
    {
        Signals {
            lits,
            circuit: Snapshot::of(circuit),
        }
    }

    /// Says that the literals are signals of the circuit.
    pub fn is_well_formed(&self)
        ensures { IsSignals self.now.circuit self.now.lits }
    {
        let _ = &self.lits;
    }

    pub fn lits(&self) -> &Lits
        ensures value { result.now ≡ self.now.lits }
        ensures well_formed { IsSignals self.now.circuit self.now.lits }
    {
        &self.lits
    }

    /// The number of goals: each combination of the signals' values is one.
    pub fn goals(&self) -> u32
        ensures { result ≡ 2 ^ length self.now.lits }
    {
        1 << self.lits.len()
    }
}
