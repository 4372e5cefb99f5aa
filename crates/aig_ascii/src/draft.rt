//! A circuit that grows line by line: what its lines define, and the uses that wait for a definition.

ghost use Rattle.std.specs.Prelude.{◌≡◌, ◌≤◌, ◌+◌, ℕ, [], ◌∷◌, ◌++◌, false, length, map, get_or, slice_index_or, OnOk, IfOk};
ghost use Rattle.aig_model.specs.Literal.{var};
ghost use Rattle.aig_model.specs.WellFormed.{limit};
ghost use Rattle.text_words.specs.Text.{fields, PassesField};
ghost use Rattle.text_words.specs.Text as text;
ghost use Rattle.aig_ascii.specs.Kinds.{aag_kind};
ghost use Rattle.aig_ascii.specs.Fields.{want_demands};
ghost use Rattle.aig_ascii.specs.Sections as sections;
ghost use Rattle.aig_ascii.specs.Sections.{defines, is_known};
ghost use Rattle.aig_ascii.specs.FirstFaults.{first_unmet, Says};

use crate::fault::{AagFault, AagKind};
use crate::fields::literal;
use aig_model::{AndGate, Bits, Gates, Latch, Latches, Lit, Lits, Names, Parts};
use ketch_base::OutOfMemory;
use std::alloc::Global;
use std::marker::Model;
use text_words::Cursor;

/// A literal that is used, and the place of its field.
#[derive(Clone, Copy, Debug, PartialEq, Eq)]
pub struct Use {
    pub at: u64,
    pub lit: Lit,
}

#[derive(Drop)]
pub struct Draft {
    top: u32,
    inputs: Lits,
    latches: Latches,
    gates: Gates,
    /// The variables that are defined so far. It grows as they come.
    defined: Bits,
    /// The uses whose variables were not defined when they came.
    pending: Vec<Use>,
}

impl Model for Draft {
    ghost use Rattle.std.specs.Prelude.{◌≡◌, ◌≤◌, ℕ, false, get_or};
    ghost use Rattle.aig_model.specs.WellFormed.{limit, latch_lits, left_sides};
    ghost use Rattle.aig_ascii.specs.Sections.{defines};
    ghost use Rattle.aig_ascii.specs.Drafts.{Draft, definers_of};

    ghost Value = { Draft };

    ghost view = { λ d. record { top = d.top; inputs = d.inputs; latches = d.latches; gates = d.gates; pending = d.pending.items } };

    ghost invariant = { λ d. (d.top ≤ limit) × ((v : ℕ) → get_or d.defined v false
        ≡ defines (definers_of (record { top = d.top; inputs = d.inputs; latches = d.latches; gates = d.gates; pending = d.pending.items })) v) };
}

/// Makes the list so long, with values that are false.
fn grow(bits: &mut Bits, len: usize) -> Result<(), OutOfMemory>
    ensures reaches { OnOk result (len ≤ length bits.new) }
    ensures same { (v : ℕ) → slice_index_or bits.new v false ≡ slice_index_or bits.old v false }
{
    while bits.len() < len {
        bits.push(false)?;
    }
    Ok(())
}

impl Draft {
    ghost use Rattle.aig_ascii.specs.Drafts.{definers_of, pending_demands, StandFor};

    /// Takes no memory; what is added takes its memory from `alloc`.
    pub fn new(alloc: Global, top: u32) -> Draft
        requires { top ≤ limit }
        ensures { result ≡ record { top = top; inputs = []; latches = []; gates = []; pending = [] } }
    {
        Draft {
            top,
            inputs: Lits::new(alloc),
            latches: Latches::new(alloc),
            gates: Gates::new(alloc),
            defined: Bits::new(alloc),
            pending: Vec::new(alloc),
        }
    }

    /// The greatest variable.
    pub fn top(&self) -> u32
        ensures value { result ≡ self.now.top }
        ensures few { result ≤ limit }
    {
        self.top
    }

    fn is_defined(&self, var: u32) -> bool
        ensures { result ≡ defines (definers_of self.now) var }
    {
        let place = var as usize;
        place < self.defined.len() && self.defined.get(place)
    }

    /// Whether the literal's variable is 0 or defined so far.
    fn is_known(&self, lit: Lit) -> bool
        ensures { result ≡ is_known (definers_of self.now) lit }
    {
        lit.var() == 0 || self.is_defined(lit.var())
    }

    fn is_new(&self, lit: Lit) -> bool
        ensures { result ≡ (sections.is_new (definers_of self.now)).passes lit }
    {
        !lit.is_negated() && lit.var() != 0 && !self.is_defined(lit.var())
    }

    /// The literal of a field that must stand here, and that defines a variable for the first time.
    pub fn defining(&self, cursor: &mut Cursor<'_>) -> Result<Lit, AagFault>
        ensures demands { Says result (first_unmet (want_demands aag_kind cursor.old
            (sections.defining self.now.top (definers_of self.now)) (fields cursor.old))) }
        ensures value { IfOk result (λ lit. lit ≡ get_or (map text.number (fields cursor.old)) 0 0) }
        ensures passes { OnOk result (PassesField cursor.old cursor.new) }
    {
        let at = cursor.at();
        let lit = literal(cursor, self.top)?;
        if !self.is_new(lit) {
            return Err(AagFault::At {
                at,
                kind: AagKind::Defined,
            });
        }
        Ok(lit)
    }

    pub fn add_input(&mut self, lit: Lit) -> Result<(), OutOfMemory>
        ensures { OnOk result (self.new ≡ record self.old { inputs = self.old.inputs ++ lit ∷ [] }) }
    {
        let place = lit.var() as usize;
        grow(&mut self.defined, place + 1)?;
        self.inputs.push(lit)?;
        self.defined.set(place, true);
        Ok(())
    }

    pub fn add_latch(&mut self, latch: Latch) -> Result<(), OutOfMemory>
        ensures { OnOk result (self.new ≡ record self.old { latches = self.old.latches ++ latch ∷ [] }) }
    {
        let place = latch.lit.var() as usize;
        grow(&mut self.defined, place + 1)?;
        self.latches.push(latch)?;
        self.defined.set(place, true);
        Ok(())
    }

    pub fn add_gate(&mut self, gate: AndGate) -> Result<(), OutOfMemory>
        ensures { OnOk result (self.new ≡ record self.old { gates = self.old.gates ++ gate ∷ [] }) }
    {
        let place = gate.lhs.var() as usize;
        grow(&mut self.defined, place + 1)?;
        self.gates.push(gate)?;
        self.defined.set(place, true);
        Ok(())
    }

    /// Notes a literal that is used, with the place of its field.
    pub fn note_use(&mut self, at: u64, lit: Lit) -> Result<(), OutOfMemory>
        ensures same { OnOk result (self.new ≡ record self.old { pending = self.new.pending }) }
        ensures uses { OnOk result (StandFor (definers_of self.old) self.new.pending (self.old.pending ++ record { at = at; lit = lit } ∷ [])) }
    {
        if !self.is_known(lit) {
            self.pending.push(Use { at, lit })?;
        }
        Ok(())
    }

    /// The first use of a variable that isn't defined.
    pub fn check_uses(&self) -> Result<(), AagFault>
        ensures { Says result (first_unmet (pending_demands (definers_of self.now) self.now.pending)) }
    {
        for waiting in &self.pending {
            if !self.is_known(waiting.lit) {
                return Err(AagFault::At {
                    at: waiting.at,
                    kind: AagKind::Undefined,
                });
            }
        }
        Ok(())
    }

    /// The parts of a circuit, with the gates in the order of their lines.
    pub fn into_parts(self, outputs: Lits, bads: Lits, constraints: Lits, names: Names) -> Parts
        ensures { result ≡ record {
          top = self.top;
          inputs = self.inputs;
          latches = self.latches;
          outputs = outputs;
          bads = bads;
          constraints = constraints;
          gates = self.gates;
          names = names;
        } }
    {
        Parts {
            top: self.top,
            inputs: self.inputs,
            latches: self.latches,
            outputs,
            bads,
            constraints,
            gates: self.gates,
            names,
        }
    }
}
