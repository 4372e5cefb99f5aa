//! The literal of a signal.

ghost use Rattle.std.specs.Prelude.{◌≡◌, ◌≤◌, slice_get, ok_or, IfOk, IfErr};
ghost use Rattle.aig_model.specs.WellFormed.{limit, IsInRange, latch_lits};
ghost use Rattle.signal_list.specs.Names.{the_owner, TellsOwners, IsAsked};
ghost use Rattle.signal_list.specs.SignalText.{literal_at, SpellsSignal};
ghost use Rattle.signal_list.specs.Reading.{IsOwnFault};

use crate::fault::SigKind;
use crate::names::{Owner, Owners};
use crate::reference::Reference;
use aig_model::{Circuit, Latches, Lit, Lits, Place};

/// The literal of the signal that a trimmed line spells.
pub fn read_signal(circuit: &Circuit, owners: &Owners<'_>, line: &[u8]) -> Result<Lit, SigKind>
    requires owners { TellsOwners circuit.now.names owners.now }
    requires asked { IsAsked line.now owners.now }
    ensures signal { IfOk result (SpellsSignal circuit.now line.now) }
    ensures fault { IfErr result (IsOwnFault circuit.now line.now) }
{
    let top = circuit.top();
    match Reference::of_line(line) {
        None => Err(SigKind::Form),
        Some(Reference::Place(place)) => at_place(circuit, place),
        Some(Reference::Literal(value)) => in_range(top, value),
        Some(Reference::Name(name)) => at_place(circuit, the_owner(owners[&name])?),
    }
}

fn at_place(circuit: &Circuit, place: Place) -> Result<Lit, SigKind>
    ensures { result ≡ ok_or (literal_at circuit.now place) SigKind.Range }
{
    literal_at(circuit, place).ok_or(SigKind::Range)
}

fn literal_at(circuit: &Circuit, place: Place) -> Option<Lit>
    ensures { result ≡ literal_at circuit.now place }
{
    match place {
        Place::Input(position) => item(circuit.inputs(), position),
        Place::Latch(position) => latch_literal(circuit.latches(), position),
        Place::Output(position) => item(circuit.outputs(), position),
        Place::Bad(position) => item(circuit.bads(), position),
        Place::Constraint(position) => item(circuit.constraints(), position),
    }
}

fn item(lits: &Lits, position: u32) -> Option<Lit>
    ensures { result ≡ slice_get lits.now position }
{
    lits.as_slice().get(position as usize).copied()
}

fn latch_literal(latches: &Latches, position: u32) -> Option<Lit>
    ensures { result ≡ slice_get (latch_lits latches.now) position }
{
    let latch = latches.as_slice().get(position as usize)?;
    Some(latch.lit)
}

fn in_range(top: u32, value: u32) -> Result<Lit, SigKind>
    requires { top ≤ limit }
    ensures ok { IfOk result (λ lit. IsInRange top value × (lit ≡ value)) }
    ensures err { IfErr result (λ kind. (kind ≡ SigKind.Range) × (¬ IsInRange top value)) }
{
    if value > 2 * top + 1 {
        return Err(SigKind::Range);
    }
    Ok(Lit::new(value))
}

fn the_owner(owner: Option<Owner>) -> Result<Place, SigKind>
    ensures { result ≡ the_owner owner }
{
    match owner {
        None => Err(SigKind::NoName),
        Some(Owner::Several) => Err(SigKind::TwoNames),
        Some(Owner::One(place)) => Ok(place),
    }
}
