//! The numbers of a proof's words.

ghost use Rattle.std.specs.Prelude.{◌≡◌};
ghost use Rattle.lrat_text.specs.Reading.{small_of, id_of, literal_of, hint_of, deleted_of, past_end};

use crate::fault::LratKind;
use cnf_base::CnfLit;
use text_words::integer;

pub fn read_id(word: &[u8]) -> Result<u64, LratKind>
    ensures { result ≡ id_of (small_of word.now) }
{
    match integer(word) {
        None => Err(LratKind::Number),
        Some(number) if number > 0 => Ok(number.unsigned_abs()),
        Some(_) => Err(LratKind::Form),
    }
}

/// A literal, or None at the 0 that ends them.
pub fn read_literal(word: &[u8]) -> Result<Option<CnfLit>, LratKind>
    ensures { result ≡ literal_of (small_of word.now) }
{
    let Some(number) = integer(word) else {
        return Err(LratKind::Number);
    };
    if number == 0 {
        return Ok(None);
    }
    if number < i64::from(i32::MIN) || number > i64::from(i32::MAX) {
        return Err(LratKind::Number);
    }
    Ok(Some(CnfLit::new(number as i32)))
}

/// A hint, or None at the 0 that ends them.
pub fn read_hint(word: &[u8]) -> Result<Option<i64>, LratKind>
    ensures { result ≡ hint_of (small_of word.now) }
{
    match integer(word) {
        None => Err(LratKind::Number),
        Some(0) => Ok(None),
        Some(number) => Ok(Some(number)),
    }
}

/// A deleted id, or None at the 0 that ends them.
pub fn read_deleted(word: &[u8]) -> Result<Option<u64>, LratKind>
    ensures { result ≡ deleted_of (small_of word.now) }
{
    match integer(word) {
        None => Err(LratKind::Number),
        Some(0) => Ok(None),
        Some(number) if number > 0 => Ok(Some(number.unsigned_abs())),
        Some(_) => Err(LratKind::Form),
    }
}

/// The fault of a word where none is due.
pub fn past_end(word: &[u8]) -> LratKind
    ensures { result ≡ past_end (small_of word.now) }
{
    match integer(word) {
        None => LratKind::Number,
        Some(_) => LratKind::Form,
    }
}
