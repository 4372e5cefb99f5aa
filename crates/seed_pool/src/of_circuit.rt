//! What a pool holds.

ghost use Rattle.aig_model.specs.declared.parts.Parts.{Parts};

use sim_batch::Seed;

/// A value that belongs to a circuit, as a seed does.
pub trait OfCircuit: Drop {
    /// The circuit.
    ghost circuit: { Self → Parts };
}

impl OfCircuit for Seed {
    ghost circuit = { λ seed. seed.circuit };
}
