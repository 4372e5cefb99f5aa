//! The lines of the names.

ghost use Rattle.std.specs.Prelude.{◌≡◌, ◌<◌, ◌++◌, length, All, OnOk};
ghost use Rattle.std.specs.List.{flat_map};
ghost use Rattle.aig_ascii.specs.CircuitText.{AreInOrder, letter_of, symbol_text};
ghost use Rattle.aig_ascii.specs.NameOrder.{HaveOwnPlaces, WritesNames, names_by};

use crate::writing::names::{Ranked, position, rank_names};
use aig_model::{Named, Place};
use ketch_base::OutOfMemory;
use std::alloc::Global;
use text_words::push_natural;

fn letter(place: &Place) -> u8
    ensures { result ≡ letter_of place.now }
{
    match place {
        Place::Input(_) => b'i',
        Place::Latch(_) => b'l',
        Place::Output(_) => b'o',
        Place::Bad(_) => b'b',
        Place::Constraint(_) => b'c',
    }
}

fn write_symbol(text: &mut Vec<u8>, named: &Named) -> Result<(), OutOfMemory>
    ensures { OnOk result (text.new.items ≡ text.old.items ++ symbol_text named.now) }
{
    text.push(letter(&named.place))?;
    push_natural(text, u64::from(position(&named.place)))?;
    text.push(b' ')?;
    text.extend_from_slice(named.name.as_slice())?;
    text.push(b'\n')?;
    Ok(())
}

fn write_ranked(text: &mut Vec<u8>, names: &[Named], ranks: &[Ranked]) -> Result<(), OutOfMemory>
    requires { All (λ r. r.index < length names.now) ranks.now }
    ensures { OnOk result (text.new.items ≡ text.old.items ++ flat_map symbol_text (names_by names.now ranks.now)) }
{
    for ranked in ranks {
        write_symbol(text, &names[ranked.index])?;
    }
    Ok(())
}

/// A line for each name, by section and position.
pub fn write_symbols(alloc: Global, text: &mut Vec<u8>, names: &[Named]) -> Result<(), OutOfMemory>
    requires { HaveOwnPlaces names.now }
    ensures { OnOk result (WritesNames names.now text.old.items text.new.items) }
{
    let ranks = rank_names(alloc, names)?;
    write_ranked(text, names, ranks.as_slice())?;
    Ok(())
}
