//! The names that a list asks for, and who has them.

ghost use Rattle.std.specs.Prelude.{◌≡◌, ◌≢◌, ℕ, List, [], ◌∷◌, IfOk, MatchOption};
ghost use Rattle.text_words.specs.Lines.{lines};
ghost use Rattle.signal_list.specs.Names.{with_one_more, TellsOwners, AreAsked, KeepsNames};

use crate::line::trim_spaces;
use aig_model::{Named, Place};
use indexmap::IndexMap;
use ketch_base::OutOfMemory;
use std::alloc::Global;
use text_words::Lines;

/// Who has a name.
#[derive(Clone, Copy, Debug, PartialEq, Eq)]
pub enum Owner {
    One(Place),
    Several,
}

/// The names that a list asks for, each with its owner, if it has one.
pub type Owners<'a> = IndexMap<&'a [u8], Option<Owner>>;

/// Looks each symbol up among the names that the text asks for, so that a circuit's names are passed once and none
/// of them is kept.
pub fn owners_asked<'a>(
    alloc: Global,
    text: &'a [u8],
    symbols: &'a [Named],
) -> Result<Owners<'a>, OutOfMemory>
    ensures asked { IfOk result (AreAsked (lines text.now)) }
    ensures owners { IfOk result (TellsOwners symbols.now) }
{
    let names = names_asked(alloc, text)?;
    if names.is_empty() {
        return Ok(names);
    }
    let owners = find_owners(names, symbols)?;
    Ok(owners)
}

fn names_asked(alloc: Global, text: &[u8]) -> Result<Owners<'_>, OutOfMemory>
    ensures asked { IfOk result (AreAsked (lines text.now)) }
    ensures none { IfOk result (TellsOwners []) }
{
    let mut names = IndexMap::new(alloc);
    for line in Lines::new(text) {
        if let Some(name) = name_on(trim_spaces(line)) {
            names.insert(name, None)?;
        }
    }
    Ok(names)
}

/// What follows the @ that a line begins with.
fn name_on(line: &[u8]) -> Option<&[u8]>
    ensures { MatchOption result
        ((name : List ℕ) → line.now ≢ 64 ∷ name)
        (λ name. line.now ≡ 64 ∷ name.now) }
{
    match line {
        [b'@', name @ ..] => Some(name),
        _ => None,
    }
}

fn find_owners<'a>(names: Owners<'a>, symbols: &'a [Named]) -> Result<Owners<'a>, OutOfMemory>
    requires { TellsOwners [] names }
    ensures names { IfOk result (KeepsNames names.entry) }
    ensures owners { IfOk result (TellsOwners symbols.now) }
{
    let mut owners = names;
    for symbol in symbols {
        let name = symbol.name.as_slice();
        if let Some(owner) = owners.get(name) {
            let owner = with_one_more(*owner, symbol.place);
            owners.insert(name, Some(owner))?;
        }
    }
    Ok(owners)
}

fn with_one_more(owner: Option<Owner>, place: Place) -> Owner
    ensures { result ≡ with_one_more owner place }
{
    match owner {
        None => Owner::One(place),
        Some(_) => Owner::Several,
    }
}
