//! Circuits that are well formed.

ghost use Rattle.std.specs.Prelude.{◌≡◌, ℕ, IfOk};
ghost use Rattle.aig_model.specs.WellFormed.{IsSized, AreNames, IsCircuit};
ghost use Rattle.ketch_base.specs.Exactly.{OkExactly, ErrExactly};
ghost use Rattle.aig_model.specs.Faults.{IsRangeFault, IsDefinedFault, IsUndefinedFault, IsOrderFault};

use crate::build::check;
use crate::fault::BuildFault;
use crate::parts::{Gates, Latches, Lits, Names, Parts};
use std::alloc::Global;
use std::marker::Model;

/// A well-formed circuit, whose gates stand in an order in which no gate uses its own or a later left side.
#[derive(Debug, Drop)]
pub struct Circuit {
    parts: Parts,
}

impl Model for Circuit {
    ghost use Rattle.aig_model.specs.declared.parts.Parts.{Parts};
    ghost use Rattle.aig_model.specs.WellFormed.{IsCircuit};

    ghost Value = { Parts };

    ghost view = { λ c. c.parts };

    ghost invariant = { λ c. IsCircuit c.parts };
}

impl Circuit {
    /// Takes no memory, and looks at nothing.
    pub fn new(parts: Parts) -> Circuit
        requires { IsCircuit parts }
        ensures { result ≡ parts }
    {
        Circuit { parts }
    }

    /// Takes a bit or two for each variable while it looks.
    pub fn build(alloc: Global, parts: Parts) -> Result<Circuit, BuildFault>
        requires sized { IsSized parts }
        requires names { AreNames parts }
        ensures value { IfOk result (λ circuit. circuit ≡ parts) }
        ensures ok { OkExactly BuildFault.OutOfMemory result (IsCircuit parts) }
        ensures range { (lit : ℕ) → ErrExactly BuildFault.OutOfMemory result (BuildFault.Range lit) (IsRangeFault parts lit) }
        ensures defined { (lit : ℕ) → ErrExactly BuildFault.OutOfMemory result (BuildFault.Defined lit) (IsDefinedFault parts lit) }
        ensures undefined { (lit : ℕ) → ErrExactly BuildFault.OutOfMemory result (BuildFault.Undefined lit) (IsUndefinedFault parts lit) }
        ensures order { (gate : ℕ) → ErrExactly BuildFault.OutOfMemory result (BuildFault.Order gate) (IsOrderFault parts gate) }
    {
        check(alloc, &parts)?;
        Ok(Circuit { parts })
    }

    /// Says that the parts are those of a circuit.
    pub fn is_well_formed(&self)
        ensures { IsCircuit self.now }
    {
        let _ = &self.parts;
    }

    /// The greatest variable.
    pub fn top(&self) -> u32
        ensures value { result ≡ self.now.top }
        ensures well_formed { IsCircuit self.now }
    {
        self.parts.top
    }

    pub fn inputs(&self) -> &Lits
        ensures { result.now ≡ self.now.inputs }
    {
        &self.parts.inputs
    }

    pub fn latches(&self) -> &Latches
        ensures { result.now ≡ self.now.latches }
    {
        &self.parts.latches
    }

    pub fn outputs(&self) -> &Lits
        ensures { result.now ≡ self.now.outputs }
    {
        &self.parts.outputs
    }

    pub fn bads(&self) -> &Lits
        ensures { result.now ≡ self.now.bads }
    {
        &self.parts.bads
    }

    pub fn constraints(&self) -> &Lits
        ensures { result.now ≡ self.now.constraints }
    {
        &self.parts.constraints
    }

    pub fn gates(&self) -> &Gates
        ensures { result.now ≡ self.now.gates }
    {
        &self.parts.gates
    }

    pub fn names(&self) -> &Names
        ensures { result.now ≡ self.now.names }
    {
        &self.parts.names
    }
}
