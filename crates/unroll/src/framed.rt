//! Frames that are kept while one question after another stands behind them.

ghost use Rattle.std.specs.Prelude.{◌≡◌, ◌≤◌, ◌<◌, ◌+◌, ◌^◌, [], All, length, take, get_or, IfOk, OnOk};
ghost use Rattle.ketch_base.specs.Exactly.{ErrExactly};
ghost use Rattle.aig_model.specs.LatchClauses.{IsLatchClause};
ghost use Rattle.unroll.specs.Starts.{IsStart};
ghost use Rattle.unroll.specs.declared.start.Start.TheVariants.{Any};
ghost use Rattle.unroll.specs.Frames.{AreTooLarge, frames_formula, vars_before};
ghost use Rattle.unroll.specs.Queries.{excludes_formula, kept_formula, search_formula};
ghost use Rattle.unroll.specs.Framing.{HasFrames, IsFraming, Puts};

use crate::cert::{add_broken, add_held, add_shown};
use crate::clauses::add;
use crate::fault::FrameFault;
use crate::frame::{add_frame, all_frames, are_too_large};
use crate::search::block;
use crate::start::Start;
use crate::undefined::undefined_vars;
use aig_model::{Circuit, Goals, LatchClauses, Signals};
use cnf_base::Formula;
use ketch_base::OutOfMemory;
use std::alloc::Global;
use std::marker::Model;
use std::snapshot::Snapshot;

/// A formula that begins with the frames of the steps 0 to `last`. The clauses behind the first `frames` ones are the
/// question, which the next question replaces.
#[derive(Drop)]
pub struct FramedFormula {
    circuit: Snapshot<Circuit>,
    start: Snapshot<Start>,
    last: u32,
    undefined: Vec<u32>,
    frames: usize,
    formula: Formula,
}

impl Model for FramedFormula {
    ghost use Rattle.unroll.specs.Framing.{Framing};

    ghost Value = { Framing };

    ghost view = { λ f. record {
      circuit = f.circuit.value;
      start = f.start.value;
      last = f.last;
      undefined = f.undefined.items;
      frames = f.frames;
      formula = f.formula;
    } };
}

/// The first `len` clauses of the formula, over more variables.
fn widened(alloc: Global, formula: &Formula, len: usize, vars: u32) -> Result<Formula, OutOfMemory>
    requires len { len ≤ length formula.now.clauses }
    requires more { formula.now.vars ≤ vars }
    requires few { vars ≤ 4000000 }
    ensures { IfOk result (λ wide. wide ≡ record { vars = vars; clauses = take len formula.now.clauses }) }
{
    formula.is_well_formed();
    let mut wide = Formula::new(alloc, vars);
    for index in 0..len {
        add(alloc, &mut wide, formula.clauses().get(index).as_slice())?;
    }
    Ok(wide)
}

impl FramedFormula {
    /// The frames of the steps 0 to `last`, from a state that the start allows, with no question.
    pub fn new(
        alloc: Global,
        circuit: &Circuit,
        start: &Start,
        last: u32,
    ) -> Result<FramedFormula, FrameFault>
        requires { IsStart circuit.now start.now }
        ensures frames { IfOk result (HasFrames circuit.now start.now last) }
        ensures too_large { ErrExactly FrameFault.OutOfMemory result FrameFault.TooLarge (AreTooLarge circuit.now last) }
    {
        circuit.is_well_formed();
        if are_too_large(circuit, last) {
            return Err(FrameFault::TooLarge);
        }
        let undefined = undefined_vars(alloc, circuit)?;
        let formula = all_frames(alloc, circuit, start, &undefined, last)?;
        Ok(FramedFormula {
            circuit: Snapshot::of(circuit),
            start: Snapshot::of(start),
            last,
            undefined,
            frames: formula.clauses().len(),
            formula,
        })
    }

    /// The last step of the frames.
    pub fn last(&self) -> u32
        ensures { result ≡ self.now.last }
    {
        self.last
    }

    /// The frames, with the question that was put last.
    pub fn formula(&self) -> &Formula
        ensures { result.now ≡ self.now.formula }
    {
        &self.formula
    }

    /// The frames of one step more, with no question.
    pub fn advance(&mut self, alloc: Global, circuit: &Circuit) -> Result<(), FrameFault>
        requires framing { IsFraming self.old }
        requires circuit { self.old.circuit ≡ circuit.now }
        ensures frames { OnOk result (HasFrames self.old.circuit self.old.start (self.old.last + 1) self.new) }
        ensures too_large { ErrExactly FrameFault.OutOfMemory result FrameFault.TooLarge (AreTooLarge circuit.now (self.old.last + 1)) }
    {
        let next = self.last + 1;
        if are_too_large(circuit, next) {
            return Err(FrameFault::TooLarge);
        }
        let vars = (next + 1) * (circuit.top() + 1);
        let mut formula = widened(alloc, &self.formula, self.frames, vars)?;
        add_frame(
            alloc,
            &mut formula,
            circuit,
            &Start::Any,
            &self.undefined,
            next,
        )?;
        self.last = next;
        self.frames = formula.clauses().len();
        self.formula = formula;
        Ok(())
    }

    /// Takes the question away.
    fn clear(&mut self)
        requires { IsFraming self.old }
        ensures { self.new ≡ record self.old { formula = frames_formula self.old.circuit self.old.start self.old.last } }
    {
        self.formula.truncate(self.frames);
    }

    /// Asks for a run that ends in a goal that isn't blocked.
    pub fn put_search(
        &mut self,
        alloc: Global,
        circuit: &Circuit,
        signals: &Signals,
        blocked: &Goals,
    ) -> Result<(), OutOfMemory>
        requires framing { IsFraming self.old }
        requires circuit { self.old.circuit ≡ circuit.now }
        requires signals { signals.now.circuit ≡ circuit.now }
        ensures { OnOk result (Puts self.old self.new (search_formula self.old.circuit signals.now.lits self.old.start self.old.last blocked.now)) }
    {
        circuit.is_well_formed();
        self.clear();
        let before = self.last * (circuit.top() + 1);
        let lits = signals.lits().as_slice();
        block(alloc, &mut self.formula, before, lits, blocked.as_slice())?;
        Ok(())
    }

    /// Asks for a step from a state in which the clauses hold, after which the one at the place doesn't.
    pub fn put_kept(
        &mut self,
        alloc: Global,
        circuit: &Circuit,
        clauses: &LatchClauses,
        place: u32,
    ) -> Result<(), OutOfMemory>
        requires frames { HasFrames circuit.now Any 0 self.old }
        requires clauses { All (IsLatchClause circuit.now) clauses.now }
        requires place { place < length clauses.now }
        ensures { OnOk result (Puts self.old self.new (kept_formula circuit.now clauses.now place)) }
    {
        circuit.is_well_formed();
        self.clear();
        add_held(alloc, &mut self.formula, circuit, clauses)?;
        add_broken(alloc, &mut self.formula, circuit, clauses, place)?;
        Ok(())
    }

    /// Asks for a step from a state in which the clauses hold that shows the goal.
    pub fn put_excludes(
        &mut self,
        alloc: Global,
        circuit: &Circuit,
        signals: &Signals,
        clauses: &LatchClauses,
        goal: u32,
    ) -> Result<(), OutOfMemory>
        requires frames { HasFrames circuit.now Any 0 self.old }
        requires signals { signals.now.circuit ≡ circuit.now }
        requires clauses { All (IsLatchClause circuit.now) clauses.now }
        requires goal { goal < 2 ^ length signals.now.lits }
        ensures { OnOk result (Puts self.old self.new (excludes_formula circuit.now signals.now.lits clauses.now goal)) }
    {
        circuit.is_well_formed();
        self.clear();
        add_held(alloc, &mut self.formula, circuit, clauses)?;
        add_shown(alloc, &mut self.formula, circuit, signals, goal)?;
        Ok(())
    }
}
