//! Deltas: numbers in groups of seven bits.

ghost use Rattle.std.specs.Prelude.{◌≡◌, ◌++◌, ◌<◌, OnOk};
ghost use Rattle.aig_binary.specs.Deltas.{delta_text};
ghost use Rattle.aig_binary.specs.Fronts.{IsFront};

use ketch_base::OutOfMemory;

/// A number, and how many bytes spell it.
#[derive(Clone, Copy, Debug, PartialEq, Eq)]
pub struct Delta {
    pub value: u64,
    pub size: usize,
}

/// Why no delta stands at the front of some bytes.
#[derive(Clone, Copy, Debug, PartialEq, Eq)]
pub enum NoDelta {
    /// The bytes end before the delta does.
    Cut,
    /// The fifth byte isn't the last.
    Long,
}

/// The delta at the front.
pub fn delta_at(bytes: &[u8]) -> Result<Delta, NoDelta>
    ensures { IsFront bytes.now result }
{
    let mut value: u64 = 0;
    let mut weight: u64 = 1;
    for (place, byte) in bytes.iter().enumerate() {
        if place == 5 {
            return Err(NoDelta::Long);
        }
        if *byte < 128 {
            return Ok(Delta {
                value: value + u64::from(*byte) * weight,
                size: place + 1,
            });
        }
        value += u64::from(*byte - 128) * weight;
        weight *= 128;
    }
    if bytes.len() < 5 {
        Err(NoDelta::Cut)
    } else {
        Err(NoDelta::Long)
    }
}

/// Writes a number at the end, in as few bytes as it takes.
pub fn push_delta(text: &mut Vec<u8>, delta: u32) -> Result<(), OutOfMemory>
    ensures { OnOk result (text.new.items ≡ text.old.items ++ delta_text delta) }
{
    let mut left = delta;
    while left >= 128 {
        text.push((left % 128 + 128) as u8)?;
        left /= 128;
    }
    text.push(left as u8)?;
    Ok(())
}
