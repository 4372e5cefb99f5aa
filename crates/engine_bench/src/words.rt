//! What the words of the command line mean.

ghost use Rattle.std.specs.Prelude.{◌≤◌, ◌^◌, IfOk};
ghost use Rattle.engine_bench.specs.Commands.{IsCommand};

use crate::stop::Stop;
use text_words::natural;

#[derive(Clone, Copy, Debug, PartialEq, Eq)]
pub enum Mode {
    /// Sweeps to a depth.
    Sweep,
    /// Looks for the greatest invariant, of a strength.
    Prove,
    /// Writes the formula of a step that is searched whole.
    Search,
    /// Writes the formula of a clause of the greatest invariant of strength 2, at a place.
    Kept,
}

/// `number` is the depth, the strength, the step or the place.
#[derive(Clone, Copy, Debug)]
pub struct Command {
    pub mode: Mode,
    pub number: u32,
    pub lemmas: u64,
}

fn read_mode(word: &[u8]) -> Option<Mode> {
    match word {
        b"sweep" => Some(Mode::Sweep),
        b"prove" => Some(Mode::Prove),
        b"search" => Some(Mode::Search),
        b"kept" => Some(Mode::Kept),
        _ => None,
    }
}

pub fn read_command(word: &[u8], number: &[u8], lemmas: &[u8]) -> Result<Command, Stop>
    ensures { IfOk result (IsCommand number.now lemmas.now) }
{
    match (read_mode(word), natural(number), natural(lemmas)) {
        (Some(mode), Some(number), Some(lemmas))
            if number <= 4_000_000 && lemmas >= 1 && lemmas <= 1 << 60 => {
            Ok(Command {
                mode,
                number: number as u32,
                lemmas,
            })
        }
        _ => Err(Stop::Usage),
    }
}
