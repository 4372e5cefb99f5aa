//! The queries of the sweep and of the hops, as a report tells them.

ghost use Rattle.std.specs.Prelude.{◌≡◌, map, option_map, IfOk};
ghost use Rattle.run_report.specs.Searches.{block_of, blocks_of, name_of};

use crate::ends::SearchBlocks;
use ketch_base::OutOfMemory;
use report_text::{Block, BlockName, Blocks};
use std::alloc::Global;
use sweep_search::{StepQueries, StepQuery};

/// A search: the sweep, or the hop of this batch.
#[derive(Debug, Clone, Copy)]
pub(crate) enum Search {
    Sweep,
    Hop(u32),
}

fn name_of(search: Search, step: u32) -> BlockName
    ensures { result ≡ name_of search step }
{
    match search {
        Search::Sweep => BlockName::Sweep { step },
        Search::Hop(batch) => BlockName::Hop { batch, step },
    }
}

fn block_of(search: Search, query: StepQuery) -> Block
    ensures { result ≡ block_of search query }
{
    Block {
        name: name_of(search, query.step),
        blocked: query.blocked,
        proof: query.proof,
    }
}

/// The queries of the steps that were searched whole.
fn refuted_blocks(
    alloc: Global,
    search: Search,
    queries: StepQueries,
) -> Result<Blocks, OutOfMemory>
    ensures { IfOk result (λ blocks. blocks ≡ map (block_of search) queries) }
{
    let mut blocks = Blocks::new(alloc);
    for query in queries.into_vec() {
        blocks.push(block_of(search, query))?;
    }
    Ok(blocks)
}

/// The query at which the search stopped.
fn spent_block(search: Search, spent: Option<StepQuery>) -> Option<Block>
    ensures { result ≡ option_map (block_of search) spent }
{
    let query = spent?;
    Some(block_of(search, query))
}

pub(crate) fn search_blocks(
    alloc: Global,
    search: Search,
    refuted: StepQueries,
    spent: Option<StepQuery>,
) -> Result<SearchBlocks, OutOfMemory>
    ensures { IfOk result (λ blocks. blocks ≡ blocks_of search refuted spent) }
{
    let refuted = refuted_blocks(alloc, search, refuted)?;
    let spent = spent_block(search, spent);
    Ok(SearchBlocks { refuted, spent })
}
