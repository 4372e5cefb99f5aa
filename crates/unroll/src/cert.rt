//! The formulas of certificates: is a clause over latches kept by each step, is a goal excluded?

ghost use Rattle.std.specs.Prelude.{◌≡◌, ◌≤◌, ◌<◌, ◌+◌, ◌^◌, ℕ, ℤ, [], All, map, length, get_or, neg_ℤ, nat_abs, IfOk, OnOk};
ghost use Rattle.aig_model.specs.WellFormed.{latch_lits, next_lits};
ghost use Rattle.aig_model.specs.LatchClauses.{IsLatchClause, NamesLatch};
ghost use Rattle.unroll.specs.Frames.{unit_clauses};
ghost use Rattle.unroll.specs.Queries.{excludes_formula, goal_lits, kept_formula, latch_clause, latch_lit};
ghost use Rattle.unroll.specs.Building.{HasLit, NamesItem, with_clauses};

use crate::clauses::add;
use crate::frame::frames_formula;
use crate::goal::goal_lits;
use crate::lits::lit_after;
use crate::start::Start;
use aig_model::{Circuit, LatchClause, LatchClauses, Lit, Signals};
use cnf_base::{CnfLit, Formula};
use ketch_base::OutOfMemory;
use std::alloc::Global;

/// A literal of a clause over latches, at step 0, with these literals of the circuit in place of the latches.
fn latch_lit(lits: &[Lit], lit: i32) -> CnfLit
    requires lits { All (HasLit 4000000 0) lits.now }
    requires names { NamesItem (length lits.now) lit }
    ensures { result ≡ latch_lit lits.now lit }
{
    let latch = lits[lit.unsigned_abs() as usize - 1];
    let own = lit_after(0, latch);
    if lit > 0 { own } else { own.negation() }
}

fn latch_clause(alloc: Global, lits: &[Lit], clause: &[i32]) -> Result<Vec<CnfLit>, OutOfMemory>
    requires lits { All (HasLit 4000000 0) lits.now }
    requires names { All (NamesItem (length lits.now)) clause.now }
    ensures { IfOk result (λ lits_at. lits_at.items ≡ latch_clause lits.now clause.now) }
{
    let mut literals = Vec::with_capacity(alloc, clause.len())?;
    for lit in clause {
        literals.push(latch_lit(lits, *lit))?;
    }
    Ok(literals)
}

fn add_latch_clauses(
    alloc: Global,
    formula: &mut Formula,
    lits: &[Lit],
    clauses: &[LatchClause],
) -> Result<(), OutOfMemory>
    requires few { formula.old.vars ≤ 4000000 }
    requires lits { All (HasLit formula.old.vars 0) lits.now }
    requires names { All (All (NamesItem (length lits.now))) clauses.now }
    ensures { OnOk result (formula.new ≡ with_clauses formula.old (map (latch_clause lits.now) clauses.now)) }
{
    for clause in clauses {
        let literals = latch_clause(alloc, lits, clause.as_slice())?;
        add(alloc, formula, &literals)?;
    }
    Ok(())
}

fn add_units(alloc: Global, formula: &mut Formula, lits: &[CnfLit]) -> Result<(), OutOfMemory>
    requires { All (λ l. nat_abs l ≤ formula.old.vars) lits.now }
    ensures { OnOk result (formula.new ≡ with_clauses formula.old (unit_clauses lits.now)) }
{
    for lit in lits {
        add(alloc, formula, &[*lit])?;
    }
    Ok(())
}

fn add_false_units(alloc: Global, formula: &mut Formula, lits: &[CnfLit]) -> Result<(), OutOfMemory>
    requires few { formula.old.vars ≤ 4000000 }
    requires lits { All (λ l. nat_abs l ≤ formula.old.vars) lits.now }
    ensures { OnOk result (formula.new ≡ with_clauses formula.old (unit_clauses (map neg_ℤ lits.now))) }
{
    for lit in lits {
        add(alloc, formula, &[lit.negation()])?;
    }
    Ok(())
}

pub(crate) fn latch_lits(alloc: Global, circuit: &Circuit) -> Result<Vec<Lit>, OutOfMemory>
    ensures { IfOk result (λ lits. lits.items ≡ latch_lits circuit.now.latches) }
{
    let latches = circuit.latches().as_slice();
    let lits = latches.iter().map(|latch| latch.lit).collect(alloc)?;
    Ok(lits)
}

fn next_lits(alloc: Global, circuit: &Circuit) -> Result<Vec<Lit>, OutOfMemory>
    ensures { IfOk result (λ lits. lits.items ≡ next_lits circuit.now.latches) }
{
    let latches = circuit.latches().as_slice();
    let lits = latches.iter().map(|latch| latch.next).collect(alloc)?;
    Ok(lits)
}

/// Behind the frames of one step: the clauses hold before it.
pub(crate) fn add_held(
    alloc: Global,
    formula: &mut Formula,
    circuit: &Circuit,
    clauses: &LatchClauses,
) -> Result<(), OutOfMemory>
    requires few { formula.old.vars ≤ 4000000 }
    requires room { circuit.now.top + 1 ≤ formula.old.vars }
    requires clauses { All (IsLatchClause circuit.now) clauses.now }
    ensures { OnOk result (formula.new ≡ with_clauses formula.old (map (latch_clause (latch_lits circuit.now.latches)) clauses.now)) }
{
    circuit.is_well_formed();
    let lits = latch_lits(alloc, circuit)?;
    add_latch_clauses(alloc, formula, &lits, clauses.as_slice())?;
    Ok(())
}

/// Behind them: the clause at the place is false after the step.
pub(crate) fn add_broken(
    alloc: Global,
    formula: &mut Formula,
    circuit: &Circuit,
    clauses: &LatchClauses,
    place: u32,
) -> Result<(), OutOfMemory>
    requires few { formula.old.vars ≤ 4000000 }
    requires room { circuit.now.top + 1 ≤ formula.old.vars }
    requires clauses { All (IsLatchClause circuit.now) clauses.now }
    requires place { place < length clauses.now }
    ensures { OnOk result (formula.new ≡ with_clauses formula.old (unit_clauses (map neg_ℤ (latch_clause (next_lits circuit.now.latches) (get_or clauses.now place []))))) }
{
    circuit.is_well_formed();
    let lits = next_lits(alloc, circuit)?;
    let clause = clauses.get(place as usize).as_slice();
    let after = latch_clause(alloc, &lits, clause)?;
    add_false_units(alloc, formula, &after)?;
    Ok(())
}

/// Behind them: the step shows the goal.
pub(crate) fn add_shown(
    alloc: Global,
    formula: &mut Formula,
    circuit: &Circuit,
    signals: &Signals,
    goal: u32,
) -> Result<(), OutOfMemory>
    requires few { formula.old.vars ≤ 4000000 }
    requires room { circuit.now.top + 1 ≤ formula.old.vars }
    requires signals { signals.now.circuit ≡ circuit.now }
    ensures { OnOk result (formula.new ≡ with_clauses formula.old (unit_clauses (goal_lits 0 signals.now.lits goal))) }
{
    circuit.is_well_formed();
    let shown = goal_lits(alloc, 0, signals.lits().as_slice(), goal)?;
    add_units(alloc, formula, &shown)?;
    Ok(())
}

/// Values satisfy the formula exactly where the clauses hold before the step, and the clause at this place is
/// false after it.
pub fn kept_formula(
    alloc: Global,
    circuit: &Circuit,
    clauses: &LatchClauses,
    place: u32,
) -> Result<Formula, OutOfMemory>
    requires clauses { All (IsLatchClause circuit.now) clauses.now }
    requires place { place < length clauses.now }
    ensures { IfOk result (λ formula. formula ≡ kept_formula circuit.now clauses.now place) }
{
    circuit.is_well_formed();
    let mut formula = frames_formula(alloc, circuit, &Start::Any, 0)?;
    add_held(alloc, &mut formula, circuit, clauses)?;
    add_broken(alloc, &mut formula, circuit, clauses, place)?;
    Ok(formula)
}

/// Values satisfy the formula exactly where the clauses hold and the goal is shown.
pub fn excludes_formula(
    alloc: Global,
    circuit: &Circuit,
    signals: &Signals,
    clauses: &LatchClauses,
    goal: u32,
) -> Result<Formula, OutOfMemory>
    requires circuit { signals.now.circuit ≡ circuit.now }
    requires clauses { All (IsLatchClause circuit.now) clauses.now }
    requires goal { goal < 2 ^ length signals.now.lits }
    ensures { IfOk result (λ formula. formula ≡ excludes_formula circuit.now signals.now.lits clauses.now goal) }
{
    circuit.is_well_formed();
    let mut formula = frames_formula(alloc, circuit, &Start::Any, 0)?;
    add_held(alloc, &mut formula, circuit, clauses)?;
    add_shown(alloc, &mut formula, circuit, signals, goal)?;
    Ok(formula)
}
