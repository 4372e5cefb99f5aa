//! Whether clauses over latches exclude a goal.

ghost use Rattle.std.specs.Prelude.{◌≡◌, ◌≤◌, ◌<◌, ◌+◌, ◌^◌, All, length, map, IfOk, OnOk};
ghost use Rattle.unroll.specs.Queries.{excludes_formula};
ghost use Rattle.unroll.specs.Framing.{HasFrames};
ghost use Rattle.unroll.specs.declared.start.Start.TheVariants.{Any};
ghost use Rattle.aig_model.specs.Literal.{var, value_of};
ghost use Rattle.aig_model.specs.Meaning.{input_values, latch_values};
ghost use Rattle.aig_model.specs.LatchClauses.{IsLatchClause};
ghost use Rattle.inv_prover.specs.Answers.{IsExcluded};
ghost use Rattle.inv_prover.specs.declared.excluded.Excluded.TheVariants.{No};

use crate::frames::one_step;
use aig_model::{Bits, Circuit, LatchClauses, Lit, Signals};
use cnf_base::Formula;
use ketch_base::OutOfMemory;
use lrat_text::Proof;
use sat_solver::{Answer, solve};
use std::alloc::Global;
use unroll::{FramedFormula, few_clauses};

/// `Yes` has a proof that no legal step from a state in which the clauses hold shows the goal, `No` such a step, and
/// `Spent` a proof that the budget was spent on the question.
#[derive(Debug, Drop)]
pub enum Excluded {
    Yes(Proof),
    No { state: Bits, row: Bits },
    Spent(Proof),
}

fn value(values: &Bits, lit: Lit) -> bool
    requires { var lit < length values.now }
    ensures { result ≡ value_of values.now lit }
{
    values.get(lit.var() as usize) != lit.is_negated()
}

fn state_of(alloc: Global, circuit: &Circuit, values: &Bits) -> Result<Bits, OutOfMemory>
    requires { length values.now ≡ circuit.now.top + 1 }
    ensures { IfOk result (λ state. state ≡ latch_values circuit.now values.now) }
{
    circuit.is_well_formed();
    let mut state = Bits::new(alloc);
    for latch in circuit.latches().as_slice() {
        state.push(value(values, latch.lit))?;
    }
    Ok(state)
}

fn row_of(alloc: Global, circuit: &Circuit, values: &Bits) -> Result<Bits, OutOfMemory>
    requires { length values.now ≡ circuit.now.top + 1 }
    ensures { IfOk result (λ row. row ≡ input_values circuit.now values.now) }
{
    circuit.is_well_formed();
    let mut row = Bits::new(alloc);
    for lit in circuit.inputs().as_slice() {
        row.push(value(values, *lit))?;
    }
    Ok(row)
}

/// The step that these values are.
fn escape(alloc: Global, circuit: &Circuit, values: &Bits) -> Result<Excluded, OutOfMemory>
    requires { length values.now ≡ circuit.now.top + 1 }
    ensures { IfOk result (λ answer. answer ≡ No (latch_values circuit.now values.now) (input_values circuit.now values.now)) }
{
    let state = state_of(alloc, circuit, values)?;
    let row = row_of(alloc, circuit, values)?;
    Ok(Excluded::No { state, row })
}

/// The answer to the question whose formula this is.
fn answer(
    alloc: Global,
    circuit: &Circuit,
    signals: &Signals,
    formula: &Formula,
    clauses: &LatchClauses,
    goal: u32,
    lemmas: u64,
) -> Result<Excluded, OutOfMemory>
    requires formula { formula.now ≡ excludes_formula circuit.now signals.now.lits clauses.now goal }
    requires circuit { signals.now.circuit ≡ circuit.now }
    requires clauses { All (IsLatchClause circuit.now) clauses.now }
    requires few_clauses { length clauses.now < 2 ^ 32 }
    requires goal { goal < 2 ^ length signals.now.lits }
    requires some { 1 ≤ lemmas }
    requires few { lemmas ≤ 2 ^ 60 }
    ensures { IfOk result (IsExcluded circuit.now signals.now.lits clauses.now goal lemmas) }
{
    let _ = clauses;
    let _ = goal;
    circuit.is_well_formed();
    signals.is_well_formed();
    few_clauses();
    match solve(alloc, formula, lemmas)? {
        Answer::Unsat(proof) => Ok(Excluded::Yes(proof)),
        Answer::Sat(values) => {
            let answer = escape(alloc, circuit, &values)?;
            Ok(answer)
        }
        Answer::Spent(proof) => Ok(Excluded::Spent(proof)),
    }
}

/// Asks whether the clauses exclude the goal, behind the frame of one step, with a budget of lemmas.
pub fn exclude_framed(
    alloc: Global,
    circuit: &Circuit,
    signals: &Signals,
    framed: &mut FramedFormula,
    clauses: &LatchClauses,
    goal: u32,
    lemmas: u64,
) -> Result<Excluded, OutOfMemory>
    requires frames { HasFrames circuit.now Any 0 framed.old }
    requires circuit { signals.now.circuit ≡ circuit.now }
    requires clauses { All (IsLatchClause circuit.now) clauses.now }
    requires few_clauses { length clauses.now < 2 ^ 32 }
    requires goal { goal < 2 ^ length signals.now.lits }
    requires some { 1 ≤ lemmas }
    requires few { lemmas ≤ 2 ^ 60 }
    ensures frames { OnOk result (HasFrames circuit.now Any 0 framed.new) }
    ensures answer { IfOk result (IsExcluded circuit.now signals.now.lits clauses.now goal lemmas) }
{
    framed.put_excludes(alloc, circuit, signals, clauses, goal)?;
    let answer = answer(
        alloc,
        circuit,
        signals,
        framed.formula(),
        clauses,
        goal,
        lemmas,
    )?;
    Ok(answer)
}

/// Asks whether the clauses exclude the goal, with a budget of lemmas.
pub fn exclude(
    alloc: Global,
    circuit: &Circuit,
    signals: &Signals,
    clauses: &LatchClauses,
    goal: u32,
    lemmas: u64,
) -> Result<Excluded, OutOfMemory>
    requires circuit { signals.now.circuit ≡ circuit.now }
    requires clauses { All (IsLatchClause circuit.now) clauses.now }
    requires few_clauses { length clauses.now < 2 ^ 32 }
    requires goal { goal < 2 ^ length signals.now.lits }
    requires some { 1 ≤ lemmas }
    requires few { lemmas ≤ 2 ^ 60 }
    ensures { IfOk result (IsExcluded circuit.now signals.now.lits clauses.now goal lemmas) }
{
    let mut framed = one_step(alloc, circuit)?;
    let answer = exclude_framed(alloc, circuit, signals, &mut framed, clauses, goal, lemmas)?;
    Ok(answer)
}
