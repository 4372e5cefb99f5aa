//! Names in the order of their sections and positions.

ghost use Rattle.std.specs.Prelude.{◌≡◌, ◌<◌, length, All, IfOk};
ghost use Rattle.aig_ascii.specs.CircuitText.{AreInOrder, section_of, position_of};
ghost use Rattle.aig_ascii.specs.NameOrder.{HaveOwnPlaces, AreRanks, rank_of, names_by};

use aig_model::{Named, Place};
use ketch_base::OutOfMemory;
use std::alloc::Global;

/// A name by its index. Ranks rise with the section, and in a section with the position.
#[derive(Clone, Copy, Debug)]
pub struct Ranked {
    rank: u64,
    pub index: usize,
}

fn section(place: &Place) -> u64
    ensures { result ≡ section_of place.now }
{
    match place {
        Place::Input(_) => 0,
        Place::Latch(_) => 1,
        Place::Output(_) => 2,
        Place::Bad(_) => 3,
        Place::Constraint(_) => 4,
    }
}

/// The place in its section.
pub fn position(place: &Place) -> u32
    ensures { result ≡ position_of place.now }
{
    match place {
        Place::Input(k)
        | Place::Latch(k)
        | Place::Output(k)
        | Place::Bad(k)
        | Place::Constraint(k) => *k,
    }
}

fn rank(place: &Place) -> u64
    ensures { result ≡ rank_of place.now }
{
    (section(place) << 32) + u64::from(position(place))
}

fn ranks(alloc: Global, names: &[Named]) -> Result<Vec<Ranked>, OutOfMemory>
    ensures { IfOk result (λ ranks. AreRanks names.now (length names.now) ranks.items) }
{
    let mut ranks = Vec::with_capacity(alloc, names.len())?;
    for (index, named) in names.iter().enumerate() {
        ranks.push(Ranked {
            rank: rank(&named.place),
            index,
        })?;
    }
    Ok(ranks)
}

/// The names, by their indices, in the order of their sections and positions.
pub fn rank_names(alloc: Global, names: &[Named]) -> Result<Vec<Ranked>, OutOfMemory>
    requires { HaveOwnPlaces names.now }
    ensures order { IfOk result (λ ranks. AreInOrder names.now (names_by names.now ranks.items)) }
    ensures inside { IfOk result (λ ranks. All (λ r. r.index < length names.now) ranks.items) }
{
    let mut ranks = ranks(alloc, names)?;
    ranks.sort_unstable_by_key(|ranked| ranked.rank);
    Ok(ranks)
}
