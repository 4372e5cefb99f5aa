//! The latches on which signals depend.

ghost use Rattle.std.specs.Prelude.{◌≡◌, ◌+◌, ◌<◌, ◌⊎◌, ◌↔◌, ℕ, List, Some, true, false, All, Contains, length, map, slice_get, IfOk};
ghost use Rattle.aig_model.specs.Literal.{var};
ghost use Rattle.aig_model.specs.Dependence.{DependsOnLatch};
ghost use Rattle.aig_model.specs.declared.parts.Parts.{Parts};
ghost use Rattle.aig_model.specs.declared.parts.Latch.{Latch};
ghost use Rattle.inv_prover.specs.Candidates.{AreFirstDependent};
ghost use Rattle.inv_prover.specs.Dependents.{AreFirstMarked, IsGateClosed, IsLatchClosed, Marked, MarksDependence, MarksMore};

use aig_model::{AndGate, Bits, Circuit, Latch, Lit, Signals};
use ketch_base::OutOfMemory;
use std::alloc::Global;

/// The greatest number of latches that candidates speak of.
const MOST_LATCHES: usize = 24;

/// Whether the literal's variable was not marked yet.
fn mark(marks: &mut Bits, lit: Lit) -> bool
    requires { var lit < length marks.old }
    ensures more { MarksMore marks.old marks.new result }
    ensures marked { Marked marks.new lit }
    ensures only { (other : ℕ) → Marked marks.new other → Marked marks.old other ⊎ (var other ≡ var lit) }
{
    let place = lit.var() as usize;
    if marks.get(place) {
        return false;
    }
    marks.set(place, true);
    true
}

fn mark_lits(marks: &mut Bits, lits: &[Lit])
    requires { All (λ lit. var lit < length marks.old) lits.now }
    ensures size { length marks.new ≡ length marks.old }
    ensures marked { All (Marked marks.new) lits.now }
    ensures only { (other : ℕ) → Marked marks.new other → Marked marks.old other ⊎ ((lit : ℕ) × Contains lits.now lit × (var other ≡ var lit)) }
{
    for lit in lits {
        mark(marks, *lit);
    }
}

/// Marks the inputs of a gate that is marked.
fn mark_inputs(marks: &mut Bits, gate: &AndGate) -> bool
    requires lhs { var gate.now.lhs < length marks.old }
    requires left { var gate.now.left < length marks.old }
    requires right { var gate.now.right < length marks.old }
    ensures more { MarksMore marks.old marks.new result }
    ensures closed { IsGateClosed marks.new gate.now }
    ensures dependence { (c : Parts) (sig : List ℕ) → Contains c.gates gate.now → MarksDependence c sig marks.old → MarksDependence c sig marks.new }
{
    if !marks.get(gate.lhs.var() as usize) {
        return false;
    }
    let left = mark(marks, gate.left);
    let right = mark(marks, gate.right);
    left | right
}

/// Marks the next literal of a latch that is marked.
fn mark_next(marks: &mut Bits, latch: &Latch) -> bool
    requires lit { var latch.now.lit < length marks.old }
    requires next { var latch.now.next < length marks.old }
    ensures more { MarksMore marks.old marks.new result }
    ensures closed { IsLatchClosed marks.new latch.now }
    ensures dependence { (c : Parts) (sig : List ℕ) → Contains c.latches latch.now → MarksDependence c sig marks.old → MarksDependence c sig marks.new }
{
    if !marks.get(latch.lit.var() as usize) {
        return false;
    }
    mark(marks, latch.next)
}

/// One pass over the gates, the last one first: gates come behind their inputs.
fn mark_gates(circuit: &Circuit, marks: &mut Bits) -> bool
    requires { length marks.old ≡ circuit.now.top + 1 }
    ensures more { MarksMore marks.old marks.new result }
    ensures closed { result ≡ false → All (IsGateClosed marks.new) circuit.now.gates }
    ensures dependence { (sig : List ℕ) → MarksDependence circuit.now sig marks.old → MarksDependence circuit.now sig marks.new }
{
    circuit.is_well_formed();
    let gates = circuit.gates();
    let mut changed = false;
    for step in 0..gates.len() {
        let more = mark_inputs(marks, gates.get(gates.len() - 1 - step));
        changed |= more;
    }
    changed
}

fn mark_latches(circuit: &Circuit, marks: &mut Bits) -> bool
    requires { length marks.old ≡ circuit.now.top + 1 }
    ensures more { MarksMore marks.old marks.new result }
    ensures closed { result ≡ false → All (IsLatchClosed marks.new) circuit.now.latches }
    ensures dependence { (sig : List ℕ) → MarksDependence circuit.now sig marks.old → MarksDependence circuit.now sig marks.new }
{
    circuit.is_well_formed();
    let latches = circuit.latches();
    let mut changed = false;
    for step in 0..latches.len() {
        let more = mark_next(marks, latches.get(latches.len() - 1 - step));
        changed |= more;
    }
    changed
}

fn mark_all(circuit: &Circuit, marks: &mut Bits) -> bool
    requires { length marks.old ≡ circuit.now.top + 1 }
    ensures more { MarksMore marks.old marks.new result }
    ensures gates { result ≡ false → All (IsGateClosed marks.new) circuit.now.gates }
    ensures latches { result ≡ false → All (IsLatchClosed marks.new) circuit.now.latches }
    ensures dependence { (sig : List ℕ) → MarksDependence circuit.now sig marks.old → MarksDependence circuit.now sig marks.new }
{
    let by_gates = mark_gates(circuit, marks);
    let by_latches = mark_latches(circuit, marks);
    by_gates | by_latches
}

/// Marks until no gate and no latch asks for more.
fn close(circuit: &Circuit, marks: &mut Bits)
    requires { length marks.old ≡ circuit.now.top + 1 }
    ensures size { length marks.new ≡ length marks.old }
    ensures keeps { (lit : ℕ) → Marked marks.old lit → Marked marks.new lit }
    ensures gates { All (IsGateClosed marks.new) circuit.now.gates }
    ensures latches { All (IsLatchClosed marks.new) circuit.now.latches }
    ensures dependence { (sig : List ℕ) → MarksDependence circuit.now sig marks.old → MarksDependence circuit.now sig marks.new }
{
    while mark_all(circuit, marks) {}
}

/// The variables on which the signals depend, with a mark each.
fn dependence(alloc: Global, circuit: &Circuit, signals: &Signals) -> Result<Bits, OutOfMemory>
    requires { signals.now.circuit ≡ circuit.now }
    ensures size { IfOk result (λ marks. length marks ≡ circuit.now.top + 1) }
    ensures exactly { IfOk result (λ marks. (k : ℕ) (l : Latch) → slice_get circuit.now.latches k ≡ Some l
        → Marked marks l.lit ↔ DependsOnLatch circuit.now signals.now.lits k) }
{
    let mut marks = Bits::all_false(alloc, circuit.top() as usize + 1)?;
    mark_lits(&mut marks, signals.lits().as_slice());
    close(circuit, &mut marks);
    Ok(marks)
}

/// The first latches that are marked.
fn first_marked(alloc: Global, latches: &[Latch], marks: &Bits) -> Result<Vec<u32>, OutOfMemory>
    requires inside { All (λ (l : Latch). var l.lit < length marks.now) latches.now }
    requires few { length latches.now < 4000000 }
    ensures { IfOk result (λ found. AreFirstMarked latches.now marks.now (length latches.now) found.items) }
{
    let mut found = Vec::new(alloc);
    for place in 0..latches.len() {
        let is_marked = marks.get(latches[place].lit.var() as usize);
        if is_marked && found.len() < MOST_LATCHES {
            found.push(place as u32)?;
        }
    }
    Ok(found)
}

/// The first latches on which the signals depend.
pub(crate) fn first_dependent(
    alloc: Global,
    circuit: &Circuit,
    signals: &Signals,
) -> Result<Vec<u32>, OutOfMemory>
    requires { signals.now.circuit ≡ circuit.now }
    ensures dependent { IfOk result (λ latches. AreFirstDependent circuit.now signals.now.lits latches.items) }
    ensures inside { IfOk result (λ latches. All (λ k. k < length circuit.now.latches) latches.items) }
{
    circuit.is_well_formed();
    let marks = dependence(alloc, circuit, signals)?;
    let found = first_marked(alloc, circuit.latches().as_slice(), &marks)?;
    Ok(found)
}
