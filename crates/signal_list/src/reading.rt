//! Reading a signal list.

ghost use Rattle.std.specs.Prelude.{◌≡◌, ℕ, ◌<◌, ◌≤◌, ◌^◌, List, length, Contains, OnOk, IfOk, IfErr, Ok, Err};
ghost use Rattle.text_words.specs.Lines.{lines};
ghost use Rattle.signal_list.specs.SignalText.{AreSignalsOf, SpellsSignals, IsFirstFault, IsFault, Answers};
ghost use Rattle.signal_list.specs.Names.{TellsOwners, IsAsked};
ghost use Rattle.signal_list.specs.Reading.{Joins, JoinsOf, IsKeptOut, IsFaultAfter};
ghost use Rattle.signal_list.specs.declared.fault.SigKind.{SigKind};

use crate::fault::{SigFault, SigKind, on_line};
use crate::line::{is_signal, trim_spaces};
use crate::names::{Owners, owners_asked};
use crate::signal::read_signal;
use aig_model::{Circuit, Lit, Lits, Signals};
use std::alloc::Global;
use text_words::{LineFault, Lines};

const MOST_SIGNALS: usize = 10;

/// The signals of the circuit that the text spells.
pub fn read_signals(alloc: Global, bytes: &[u8], circuit: &Circuit) -> Result<Signals, SigFault>
    requires { length (lines bytes.now) < 2 ^ 32 }
    ensures signals { IfOk result (AreSignalsOf circuit.now bytes.now) }
    ensures fault { IfErr result (IsFault circuit.now bytes.now) }

    // Each text that spells signals is read, and each first fault is answered.
    ensures every_list { (lits : List ℕ) → SpellsSignals circuit.now bytes.now lits
        → Answers result (Ok (record { circuit = circuit.now; lits = lits })) }
    ensures every_fault { (line : ℕ) (kind : SigKind) → IsFirstFault circuit.now bytes.now line kind
        → Answers result (Err (SigFault.At line kind)) }
{
    circuit.is_well_formed();
    let lits = read_lits(alloc, bytes, circuit)?;
    Ok(Signals::new(lits, circuit))
}

fn read_lits(alloc: Global, bytes: &[u8], circuit: &Circuit) -> Result<Lits, SigFault>
    requires { length (lines bytes.now) < 2 ^ 32 }
    ensures lits { IfOk result (SpellsSignals circuit.now bytes.now) }
    ensures fault { IfErr result (IsFault circuit.now bytes.now) }
{
    let owners = owners_asked(alloc, bytes, circuit.names().as_slice())?;
    let mut lits = Lits::new(alloc);
    let mut number = 0;
    for line in Lines::new(bytes) {
        number += 1;
        let line = trim_spaces(line);
        if !is_signal(line) {
            continue;
        }
        if let Err(fault) = add_signal(&mut lits, circuit, &owners, line) {
            return Err(on_line(fault, number));
        }
    }
    if lits.is_empty() {
        return Err(SigFault::At {
            line: 0,
            kind: SigKind::Empty,
        });
    }
    Ok(lits)
}

/// Puts the literal of the signal on a trimmed line after the others.
fn add_signal(
    lits: &mut Lits,
    circuit: &Circuit,
    owners: &Owners<'_>,
    line: &[u8],
) -> Result<(), LineFault<SigKind>>
    requires owners { TellsOwners circuit.now.names owners.now }
    requires asked { IsAsked line.now owners.now }
    requires few { length lits.old ≤ 10 }
    ensures ok { OnOk result (JoinsOf circuit.now line.now lits.old lits.new) }
    ensures err { IfErr result (IsFaultAfter circuit.now lits.old line.now) }
{
    let lit = read_signal(circuit, owners, line)?;
    join(lits, lit)
}

fn join(lits: &mut Lits, lit: Lit) -> Result<(), LineFault<SigKind>>
    ensures ok { OnOk result (Joins lits.old lit lits.new) }
    ensures err { IfErr result (IsKeptOut lits.old lit) }
{
    if lits.as_slice().contains(&lit) {
        return Err(LineFault::Kind(SigKind::Repeated));
    }
    if lits.len() >= MOST_SIGNALS {
        return Err(LineFault::Kind(SigKind::TooMany));
    }
    lits.push(lit)?;
    Ok(())
}
