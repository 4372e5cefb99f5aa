//! The symbols behind the gates, and the comment.

ghost use Rattle.std.specs.Prelude.{◌≡◌, ◌<◌, ◌∷◌, ◌++◌, [], Some, MatchOption, OnOk, IfOk, true, false, length};
ghost use Rattle.std.specs.Bool.{OnTrue, OnFalse};
ghost use Rattle.std.specs.Option.{option_to_list};
ghost use Rattle.text_words.specs.Text.{line_bytes, next_line, all_lines};
ghost use Rattle.aig_ascii.specs.Demands.{demand};
ghost use Rattle.aig_ascii.specs.Header.{AreFew};
ghost use Rattle.aig_ascii.specs.Symbols.{begins_comment, symbol_of, symbol_on, symbol_lines, symbol_demands, symbols_of, exists_in, is_right};
ghost use Rattle.aig_ascii.specs.SymbolTables.{exists_symbol, slot, slots, place_within, symbol_line_demands};
ghost use Rattle.aig_ascii.specs.FirstFaults.{first_unmet, Says};

use crate::fault::{Fault, FormatKind, SharedKind};
use crate::header::Sizes;
use aig_model::{Bits, Name, Named, Names, Place};
use ketch_base::OutOfMemory;
use std::alloc::Global;
use std::marker::Model;
use text_words::{Cursor, digits};

/// The names so far, and which items have one.
#[derive(Drop)]
struct SymbolTable {
    sizes: Sizes,
    names: Names,
    /// A truth value for each item that can have a name, section by section.
    taken: Bits,
}

impl Model for SymbolTable {
    ghost use Rattle.std.specs.Prelude.{◌≡◌, length, true, false, get_or};
    ghost use Rattle.aig_model.specs.declared.parts.Place.{Place};
    ghost use Rattle.aig_ascii.specs.Header.{AreFew};
    ghost use Rattle.aig_ascii.specs.Symbols.{exists_in, is_named};
    ghost use Rattle.aig_ascii.specs.SymbolTables.{Table, slot, slots};

    ghost Value = { Table };

    ghost view = { λ t. record { sizes = t.sizes; names = t.names } };

    ghost invariant = { λ t. AreFew t.sizes × (length t.taken ≡ slots t.sizes)
        × ((place : Place) → exists_in t.sizes place ≡ true → get_or t.taken (slot t.sizes place) false ≡ is_named t.names place) };
}

/// Where the truth value of an item stands.
fn slot(sizes: Sizes, place: Place) -> usize
    requires few { AreFew sizes }
    requires exists { exists_in sizes place ≡ true }
    ensures value { result ≡ slot sizes place }
    ensures within { result < slots sizes }
{
    match place {
        Place::Input(index) => index as usize,
        Place::Latch(index) => sizes.inputs as usize + index as usize,
        Place::Output(index) => { sizes.inputs as usize + sizes.latches as usize + index as usize }
        Place::Bad(index) => {
            sizes.inputs as usize + sizes.latches as usize + sizes.outputs as usize + index as usize
        }
        Place::Constraint(index) => {
            sizes.inputs as usize
                + sizes.latches as usize
                + sizes.outputs as usize
                + sizes.bads as usize
                + index as usize
        }
    }
}

/// The item with this index in the section of this letter, if there is one.
fn place_within(sizes: Sizes, letter: u8, index: u64) -> Option<Place>
    ensures { result ≡ place_within sizes letter index }
{
    match letter {
        b'i' if index < u64::from(sizes.inputs) => Some(Place::Input(index as u32)),
        b'l' if index < u64::from(sizes.latches) => Some(Place::Latch(index as u32)),
        b'o' if index < u64::from(sizes.outputs) => Some(Place::Output(index as u32)),
        b'b' if index < u64::from(sizes.bads) => Some(Place::Bad(index as u32)),
        b'c' if index < u64::from(sizes.constraints) => Some(Place::Constraint(index as u32)),
        _ => None,
    }
}

/// The symbol on a line, if it is one of an item that there is.
fn existing_symbol(sizes: Sizes, line: &[u8]) -> Option<(Place, &[u8])>
    requires { AreFew sizes }
    ensures { MatchOption result (exists_symbol sizes (symbol_of line.now) ≡ false)
        (λ s. (symbol_of line.now ≡ Some (record { place = s.0; name = s.1.now })) × (exists_in sizes s.0 ≡ true)) }
{
    let (letter, behind_letter) = line.split_first()?;
    let (index, behind_index) = digits(behind_letter);
    if behind_index.len() == behind_letter.len() {
        return None;
    }
    let (space, name) = behind_index.split_first()?;
    if *space != b' ' || name.is_empty() {
        return None;
    }
    let place = place_within(sizes, *letter, index)?;
    Some((place, name))
}

fn begins_comment(line: &[u8]) -> bool
    ensures { result ≡ begins_comment line.now }
{
    match line {
        [b'c', next, ..] => !next.is_ascii_digit(),
        [b'c'] => true,
        _ => false,
    }
}

impl SymbolTable {
    /// Takes a bit for each item that can have a name.
    fn new(alloc: Global, sizes: Sizes) -> Result<SymbolTable, OutOfMemory>
        requires { AreFew sizes }
        ensures { IfOk result (λ table. table ≡ record { sizes = sizes; names = [] }) }
    {
        let slots = sizes.inputs as usize
            + sizes.latches as usize
            + sizes.outputs as usize
            + sizes.bads as usize
            + sizes.constraints as usize;
        let taken = Bits::all_false(alloc, slots)?;
        Ok(SymbolTable {
            sizes,
            names: Names::new(alloc),
            taken,
        })
    }

    /// Adds the symbol of the line that begins at this place.
    fn add<K: FormatKind>(&mut self, alloc: Global, at: u64, line: &[u8]) -> Result<(), Fault<K>>
        ensures demands { Says result (first_unmet (demand at (K.kind SharedKind.Symbol) (is_right self.old.sizes self.old.names (symbol_of line.now)) ∷ [])) }
        ensures ok { OnOk result (self.new ≡ record self.old { names = self.old.names ++ option_to_list (symbol_of line.now) }) }
    {
        let Some((place, name)) = existing_symbol(self.sizes, line) else {
            return Err(Fault::At {
                at,
                kind: K::of(SharedKind::Symbol),
            });
        };
        let slot = slot(self.sizes, place);
        if self.taken.get(slot) {
            return Err(Fault::At {
                at,
                kind: K::of(SharedKind::Symbol),
            });
        }
        let name = Name::from_vec(Vec::from_slice(alloc, name)?);
        self.names.push(Named { place, name })?;
        self.taken.set(slot, true);
        Ok(())
    }

    fn into_names(self) -> Names
        ensures { result ≡ self.names }
    {
        self.names
    }
}

/// Whether a line before the comment begins here.
fn goes_on(cursor: &Cursor<'_>) -> bool
    ensures more { OnTrue result (begins_comment (line_bytes cursor.now.bytes) ≡ false) }
    ensures some { OnTrue result (0 < length cursor.now.bytes) }
    ensures end { OnFalse result (symbol_lines (all_lines cursor.now) ≡ []) }
{
    !cursor.is_done() && !begins_comment(cursor.line())
}

/// Reads a line before the comment, which may be empty.
fn read_symbol_line<K: FormatKind>(
    alloc: Global,
    cursor: &mut Cursor<'_>,
    table: &mut SymbolTable,
) -> Result<(), Fault<K>>
    ensures demands { Says result (first_unmet (symbol_line_demands K.kind table.old cursor.old)) }
    ensures table { OnOk result (table.new ≡ record table.old { names = table.old.names ++ option_to_list (symbol_on cursor.old) }) }
    ensures next { OnOk result (cursor.new ≡ next_line cursor.old) }
{
    let line = cursor.line();
    if !line.is_empty() {
        table.add(alloc, cursor.at(), line)?;
    }
    cursor.next_line();
    Ok(())
}

/// The names of the symbols, up to the comment or to the text's end.
pub fn read_symbols<K: FormatKind>(
    alloc: Global,
    cursor: &mut Cursor<'_>,
    sizes: Sizes,
) -> Result<Names, Fault<K>>
    requires { AreFew sizes }
    ensures demands { Says result (first_unmet (symbol_demands K.kind sizes [] (symbol_lines (all_lines cursor.old)))) }
    ensures names { IfOk result (λ names. names ≡ symbols_of (symbol_lines (all_lines cursor.old))) }
{
    let mut table = SymbolTable::new(alloc, sizes)?;
    'lines: while goes_on(cursor) {
        read_symbol_line(alloc, cursor, &mut table)?;
    }
    Ok(table.into_names())
}
