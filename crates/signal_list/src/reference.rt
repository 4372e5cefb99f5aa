//! What a signal refers to, as its line says it.

ghost use Rattle.std.specs.Prelude.{◌≡◌, min};
ghost use Rattle.std.specs.Option.{option_map};
ghost use Rattle.text_words.specs.Numbers.{natural_of};
ghost use Rattle.signal_list.specs.Reading.{reference_of, capped, seen};

use aig_model::Place;
use text_words::natural;

/// A number that a u32 can't hold is out of range anyhow, and the greatest u32 stands for it.
#[derive(Clone, Copy)]
pub enum Reference<'a> {
    Place(Place),
    Literal(u32),
    Name(&'a [u8]),
}

impl<'a> Reference<'a> {
    /// What a trimmed line says, where it has one of the six forms.
    pub fn of_line(line: &'a [u8]) -> Option<Reference<'a>>
        ensures { option_map seen result ≡ option_map capped (reference_of line.now) }
    {
        match line {
            [b'i', digits @ ..] => Some(Reference::Place(Place::Input(number(digits)?))),
            [b'l', digits @ ..] => Some(Reference::Place(Place::Latch(number(digits)?))),
            [b'o', digits @ ..] => Some(Reference::Place(Place::Output(number(digits)?))),
            [b'b', digits @ ..] => Some(Reference::Place(Place::Bad(number(digits)?))),
            [b'n', digits @ ..] => Some(Reference::Literal(number(digits)?)),
            [b'@', name @ ..] if !name.is_empty() => Some(Reference::Name(name)),
            _ => None,
        }
    }
}

fn number(digits: &[u8]) -> Option<u32>
    ensures { result ≡ option_map (λ n. min n u32.MAX) (natural_of digits.now) }
{
    let number = natural(digits)?;
    Some(number.min(u64::from(u32::MAX)) as u32)
}
