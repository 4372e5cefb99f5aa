//! What the goal circuit keeps of a circuit.

ghost use Rattle.std.specs.Prelude.{◌≡◌, [], filter, IfOk, OnOk};
ghost use Rattle.goal_circuit.specs.GoalCircuit.{is_kept, is_kept_place, kept_parts};

use aig_model::{Circuit, Gates, Latches, Lit, Lits, Name, Named, Names, Parts, Place};
use ketch_base::OutOfMemory;
use std::alloc::Global;

fn is_kept(place: Place) -> bool
    ensures { result ≡ is_kept_place place }
{
    match place {
        Place::Input(_) | Place::Latch(_) | Place::Constraint(_) => true,
        Place::Output(_) | Place::Bad(_) => false,
    }
}

fn copied(alloc: Global, named: &Named) -> Result<Named, OutOfMemory>
    ensures { IfOk result (λ copy. copy ≡ named.now) }
{
    let name = Name::from_vec(Vec::from_slice(alloc, named.name.as_slice())?);
    Ok(Named {
        place: named.place,
        name,
    })
}

#[tactic(auto, using(std::proofs::lemmas::List::Elements::filter_more))]
fn kept_names(alloc: Global, names: &[Named]) -> Result<Names, OutOfMemory>
    ensures { IfOk result (λ kept. kept ≡ filter is_kept names.now) }
{
    let mut kept = Names::new(alloc);
    for named in names {
        if is_kept(named.place) {
            kept.push(copied(alloc, named)?)?;
        }
    }
    Ok(kept)
}

fn copied_lits(alloc: Global, lits: &[Lit]) -> Result<Lits, OutOfMemory>
    ensures { IfOk result (λ copy. copy ≡ lits.now) }
{
    let copy = Vec::from_slice(alloc, lits)?;
    Ok(Lits::from_vec(copy))
}

fn nothing(alloc: Global, top: u32) -> Parts
    ensures { result ≡ record { top = top; inputs = []; latches = []; outputs = []; bads = []; constraints = []; gates = []; names = [] } }
{
    Parts {
        top,
        inputs: Lits::new(alloc),
        latches: Latches::new(alloc),
        outputs: Lits::new(alloc),
        bads: Lits::new(alloc),
        constraints: Lits::new(alloc),
        gates: Gates::new(alloc),
        names: Names::new(alloc),
    }
}

fn keep(alloc: Global, circuit: &Circuit, parts: &mut Parts) -> Result<(), OutOfMemory>
    ensures top { parts.new.top ≡ parts.old.top }
    ensures outputs { parts.new.outputs ≡ parts.old.outputs }
    ensures bads { parts.new.bads ≡ parts.old.bads }
    ensures inputs { OnOk result (parts.new.inputs ≡ circuit.now.inputs) }
    ensures latches { OnOk result (parts.new.latches ≡ circuit.now.latches) }
    ensures constraints { OnOk result (parts.new.constraints ≡ circuit.now.constraints) }
    ensures gates { OnOk result (parts.new.gates ≡ circuit.now.gates) }
    ensures names { OnOk result (parts.new.names ≡ filter is_kept circuit.now.names) }
{
    parts.inputs = copied_lits(alloc, circuit.inputs().as_slice())?;
    parts.latches = Latches::from_vec(Vec::from_slice(alloc, circuit.latches().as_slice())?);
    parts.constraints = copied_lits(alloc, circuit.constraints().as_slice())?;
    parts.gates = Gates::from_vec(Vec::from_slice(alloc, circuit.gates().as_slice())?);
    parts.names = kept_names(alloc, circuit.names().as_slice())?;
    Ok(())
}

/// The inputs, latches, constraints and gates, and the names of the first three.
pub fn kept_parts(alloc: Global, circuit: &Circuit, top: u32) -> Result<Parts, OutOfMemory>
    ensures { IfOk result (λ parts. parts ≡ kept_parts circuit.now top) }
{
    let mut parts = nothing(alloc, top);
    keep(alloc, circuit, &mut parts)?;
    Ok(parts)
}
