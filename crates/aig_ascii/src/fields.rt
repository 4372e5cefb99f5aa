//! The fields of a line, read one after another.

ghost use Rattle.std.specs.Prelude.{◌≡◌, ◌≤◌, true, min, [], ◌∷◌, map, get_or, OnOk, IfOk};
ghost use Rattle.aig_model.specs.WellFormed.{limit};
ghost use Rattle.text_words.specs.Text.{ends_line, fields, next_line, PassesField};
ghost use Rattle.text_words.specs.Text as text;
ghost use Rattle.aig_ascii.specs.Fields.{missing, want_demands, none_demands, wanted, optional};
ghost use Rattle.aig_ascii.specs.Header as header;
ghost use Rattle.aig_ascii.specs.Sections as sections;
ghost use Rattle.aig_ascii.specs.FirstFaults.{first_unmet, Says, IsFaultOf};

use crate::fault::{Fault, FormatKind, SharedKind};
use aig_model::{Lit, Reset};
use text_words::Cursor;

const MOST: u64 = 3_999_999;

/// The fault of a field that is missing where the line ends.
fn missing<K: FormatKind>(cursor: &Cursor<'_>) -> Fault<K>
    requires { ends_line cursor.now.bytes ≡ true }
    ensures { IsFaultOf (missing K.kind cursor.now) result }
{
    let end = cursor.line_end();
    let kind = if end.is_cut {
        K::of(SharedKind::Truncated)
    } else {
        K::of(SharedKind::Number)
    };
    Fault::At { at: end.at, kind }
}

/// The number of a field that must stand here, or the greatest u64 in place of a greater one.
pub fn number<K: FormatKind>(cursor: &mut Cursor<'_>) -> Result<u64, Fault<K>>
    ensures demands { Says result (first_unmet (want_demands K.kind cursor.old (wanted []) (fields cursor.old))) }
    ensures value { IfOk result (λ n. n ≡ min (get_or (map text.number (fields cursor.old)) 0 0) u64.MAX) }
    ensures passes { OnOk result (PassesField cursor.old cursor.new) }
{
    if !cursor.has_field() {
        return Err(missing(cursor));
    }
    let at = cursor.at();
    match cursor.number() {
        Some(value) => Ok(value),
        None => Err(Fault::At {
            at,
            kind: K::of(SharedKind::Number),
        }),
    }
}

/// The same of a number of the header.
pub fn size<K: FormatKind>(cursor: &mut Cursor<'_>) -> Result<u32, Fault<K>>
    ensures demands { Says result (first_unmet (want_demands K.kind cursor.old (wanted (header.within_limit K.kind ∷ [])) (fields cursor.old))) }
    ensures value { IfOk result (λ n. n ≡ get_or (map text.number (fields cursor.old)) 0 0) }
    ensures few { IfOk result (λ n. n ≤ limit) }
    ensures passes { OnOk result (PassesField cursor.old cursor.new) }
{
    let at = cursor.at();
    let value = number(cursor)?;
    if value > MOST {
        return Err(Fault::At {
            at,
            kind: K::of(SharedKind::Limit),
        });
    }
    Ok(value as u32)
}

/// The same where the field may be missing, and is 0 then.
pub fn optional_size<K: FormatKind>(cursor: &mut Cursor<'_>) -> Result<u32, Fault<K>>
    ensures demands { Says result (first_unmet (want_demands K.kind cursor.old (optional (header.within_limit K.kind ∷ [])) (fields cursor.old))) }
    ensures value { IfOk result (λ n. n ≡ get_or (map text.number (fields cursor.old)) 0 0) }
    ensures few { IfOk result (λ n. n ≤ limit) }
    ensures passes { OnOk result (PassesField cursor.old cursor.new) }
{
    if cursor.has_field() {
        size(cursor)
    } else {
        Ok(0)
    }
}

/// Passes a count of liveness properties, which is 0 or missing.
pub fn no_liveness<K: FormatKind>(cursor: &mut Cursor<'_>) -> Result<(), Fault<K>>
    ensures demands { Says result (first_unmet (want_demands K.kind cursor.old
        (optional (header.within_limit K.kind ∷ header.no_liveness K.kind ∷ [])) (fields cursor.old))) }
    ensures passes { OnOk result (PassesField cursor.old cursor.new) }
{
    let at = cursor.at();
    let count = optional_size(cursor)?;
    if count != 0 {
        return Err(Fault::At {
            at,
            kind: K::of(SharedKind::Liveness),
        });
    }
    Ok(())
}

/// The literal of a field that must stand here.
pub fn literal<K: FormatKind>(cursor: &mut Cursor<'_>, top: u32) -> Result<Lit, Fault<K>>
    requires { top ≤ limit }
    ensures demands { Says result (first_unmet (want_demands K.kind cursor.old (sections.literal K.kind top) (fields cursor.old))) }
    ensures value { IfOk result (λ lit. lit ≡ get_or (map text.number (fields cursor.old)) 0 0) }
    ensures passes { OnOk result (PassesField cursor.old cursor.new) }
{
    let at = cursor.at();
    let value = number(cursor)?;
    if value > 2 * u64::from(top) + 1 {
        return Err(Fault::At {
            at,
            kind: K::of(SharedKind::Range),
        });
    }
    Ok(Lit::new(value as u32))
}

/// The reset of a latch, which is 0 where it is missing.
pub fn reset<K: FormatKind>(cursor: &mut Cursor<'_>, lit: Lit) -> Result<Reset, Fault<K>>
    ensures demands { Says result (first_unmet (want_demands K.kind cursor.old (optional (sections.is_reset K.kind lit ∷ [])) (fields cursor.old))) }
    ensures value { IfOk result (λ reset. reset ≡ sections.reset_of (get_or (map text.number (fields cursor.old)) 0 0)) }
    ensures passes { OnOk result (PassesField cursor.old cursor.new) }
{
    if !cursor.has_field() {
        return Ok(Reset::Zero);
    }
    let at = cursor.at();
    let value = number(cursor)?;
    if value == 0 {
        return Ok(Reset::Zero);
    }
    if value == 1 {
        return Ok(Reset::One);
    }
    if value == u64::from(lit.value()) {
        return Ok(Reset::Free);
    }
    Err(Fault::At {
        at,
        kind: K::of(SharedKind::Reset),
    })
}

/// Goes on to the next line, where no field is left of this one.
pub fn end_line<K: FormatKind>(cursor: &mut Cursor<'_>) -> Result<(), Fault<K>>
    ensures demands { Says result (first_unmet (none_demands K.kind (fields cursor.old))) }
    ensures next { OnOk result (cursor.new ≡ next_line cursor.old) }
{
    if cursor.has_field() {
        let at = cursor.at();
        return Err(Fault::At {
            at,
            kind: K::of(SharedKind::Number),
        });
    }
    cursor.next_line();
    Ok(())
}
