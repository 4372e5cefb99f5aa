//! The queries, seeds and clauses that the ends leave in a report.

ghost use Rattle.std.specs.Prelude.{◌≡◌, ◌++◌, IfOk, OnOk};
ghost use Rattle.run_report.specs.Ends.{optional, inv_of};
ghost use Rattle.run_report.specs.Ended.{hop_refutes, hop_spents, invs_from, prover_blocks, seeds_of};

use crate::ends::{BatchEnd, BatchEnds, ProverEnd};
use ketch_base::OutOfMemory;
use report_text::{Block, Blocks, Inv, Invs, SeedLines};
use std::alloc::Global;

pub(crate) fn add_optional(blocks: &mut Blocks, block: Option<Block>) -> Result<(), OutOfMemory>
    ensures { OnOk result (blocks.new ≡ blocks.old ++ optional block) }
{
    if let Some(block) = block {
        blocks.push(block)?;
    }
    Ok(())
}

fn add_all(blocks: &mut Blocks, more: Blocks) -> Result<(), OutOfMemory>
    ensures { OnOk result (blocks.new ≡ blocks.old ++ more) }
{
    for next in more.into_vec() {
        blocks.push(next)?;
    }
    Ok(())
}

/// The seeds of the batches. The queries of their hops come after those that are there.
pub(crate) fn add_batches(
    alloc: Global,
    spents: &mut Blocks,
    refutes: &mut Blocks,
    batches: BatchEnds,
) -> Result<SeedLines, OutOfMemory>
    ensures seeds { IfOk result (λ seeds. seeds ≡ seeds_of batches) }
    ensures spents { OnOk result (spents.new ≡ spents.old ++ hop_spents batches) }
    ensures refutes { OnOk result (refutes.new ≡ refutes.old ++ hop_refutes batches) }
{
    let mut seeds = SeedLines::new(alloc);
    for end in batches.into_vec() {
        let BatchEnd { seed, hop } = end;
        seeds.push(seed)?;
        add_optional(spents, hop.spent)?;
        add_all(refutes, hop.refuted)?;
    }
    Ok(seeds)
}

/// The clauses of the prover. Its spent queries come last.
pub(crate) fn add_prover(spents: &mut Blocks, prover: ProverEnd) -> Result<Option<Inv>, OutOfMemory>
    ensures inv { IfOk result (λ inv. inv ≡ inv_of prover) }
    ensures spents { OnOk result (spents.new ≡ spents.old ++ prover_blocks prover) }
{
    match prover {
        ProverEnd::NotRun | ProverEnd::AllSettled => Ok(None),
        ProverEnd::Spent(block) => {
            spents.push(block)?;
            Ok(None)
        }
        ProverEnd::Whole { inv, spents: more } => {
            add_all(spents, more)?;
            Ok(Some(inv))
        }
    }
}

/// The clauses are told where some goal is unreachable.
pub(crate) fn invs_from(
    alloc: Global,
    unreachable: usize,
    inv: Option<Inv>,
) -> Result<Invs, OutOfMemory>
    ensures { IfOk result (λ invs. invs ≡ invs_from unreachable inv) }
{
    let mut invs = Invs::new(alloc);
    if unreachable > 0 {
        if let Some(inv) = inv {
            invs.push(inv)?;
        }
    }
    Ok(invs)
}
