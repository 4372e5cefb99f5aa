//! Items, one behind the other, and sections, which count them first.

ghost use Rattle.std.specs.Prelude.{◌≡◌, ℕ, []};
ghost use Rattle.report_lines.specs.Reading.{Place, Read, Gives, items_read, section_read};

use ketch_base::Sequence;
use report_lines::{ReportFault, TextLines, read_count};
use std::alloc::Global;

/// How an item of a section is read; items count from 0.
pub trait ItemReader {
    type Item: Drop;

    /// What the item of this number tells at a place.
    ghost told: { Self → ℕ → Place → Read Self.Item };

    fn read(
        &self,
        alloc: Global,
        lines: &mut TextLines<'_>,
        number: u32,
    ) -> Result<Self::Item, ReportFault>
        ensures { Gives result lines.new (told self.now number lines.old) };
}

/// So many items.
#[tactic(auto, using(crate::proofs::ItemsRead::item_steps))]
pub fn read_items<R: ItemReader>(
    alloc: Global,
    lines: &mut TextLines<'_>,
    reader: &R,
    count: u32,
) -> Result<Sequence<R::Item>, ReportFault>
    ensures { Gives result lines.new (items_read (R.told reader.now) 0 count [] lines.old) }
{
    let mut items = Sequence::new(alloc);
    for number in 0..count {
        items.push(reader.read(alloc, lines, number)?)?;
    }
    Ok(items)
}

/// How many items, and the items.
pub fn read_section<R: ItemReader>(
    alloc: Global,
    lines: &mut TextLines<'_>,
    name: &[u8],
    reader: &R,
) -> Result<Sequence<R::Item>, ReportFault>
    ensures { Gives result lines.new (section_read name.now (R.told reader.now) lines.old) }
{
    let count = read_count(name, lines)?;
    let items = read_items(alloc, lines, reader, count)?;
    Ok(items)
}
