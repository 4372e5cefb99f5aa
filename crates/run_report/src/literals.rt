//! What the types of proofs keep of their literals.

ghost use Rattle.std.specs.Prelude.{All};
ghost use Rattle.lrat_text.specs.Text.{HasProofLiterals};
ghost use Rattle.report_text.specs.declared.report.Block.{Block};
ghost use Rattle.run_report.specs.Lines.{HasBasisLiterals, HaveEndLiterals, HaveLiterals, HasProverLiterals, HaveSearchLiterals};
ghost use Rattle.run_report.specs.declared.ends.BatchEnd.{BatchEnd};
ghost use Rattle.run_report.specs.declared.posts.Post.{Post};

use crate::ends::{BatchEnds, Ends, ProverEnd, SearchBlocks};
use crate::posts::{Basis, Posts};
use lrat_text::Proofs;
use report_text::{Block, Blocks, proof_literals_fit};

fn block_literals_fit(spent: &Option<Block>)
    ensures { HaveLiterals spent.now }
{
    if let Some(block) = spent {
        proof_literals_fit(&block.proof);
    }
}

fn blocks_literals_fit(blocks: &Blocks)
    ensures { All (λ (b : Block). HasProofLiterals b.proof) blocks.now }
{
    for block in blocks.as_slice() {
        proof_literals_fit(&block.proof);
    }
}

fn proofs_literals_fit(proofs: &Proofs)
    ensures { All HasProofLiterals proofs.now }
{
    for proof in proofs.as_slice() {
        proof_literals_fit(proof);
    }
}

fn search_literals_fit(search: &SearchBlocks)
    ensures { HaveSearchLiterals search.now }
{
    blocks_literals_fit(&search.refuted);
    block_literals_fit(&search.spent);
}

fn batches_literals_fit(batches: &BatchEnds)
    ensures { All (λ (end : BatchEnd). HaveSearchLiterals end.hop) batches.now }
{
    for end in batches.as_slice() {
        search_literals_fit(&end.hop);
    }
}

fn prover_literals_fit(prover: &ProverEnd)
    ensures { HasProverLiterals prover.now }
{
    match prover {
        ProverEnd::NotRun | ProverEnd::AllSettled => {}
        ProverEnd::Spent(block) => proof_literals_fit(&block.proof),
        ProverEnd::Whole { inv, spents } => {
            proofs_literals_fit(&inv.kept);
            blocks_literals_fit(spents);
        }
    }
}

fn basis_literals_fit(basis: &Basis)
    ensures { HasBasisLiterals basis.now }
{
    match basis {
        Basis::Witness(_) => {}
        Basis::Proof(proof) => proof_literals_fit(proof),
    }
}

pub(crate) fn posts_literals_fit(posts: &Posts)
    ensures { All (λ (p : Post). HasBasisLiterals p.basis) posts.now }
{
    for post in posts.as_slice() {
        basis_literals_fit(&post.basis);
    }
}

pub(crate) fn ends_literals_fit(ends: &Ends)
    ensures { HaveEndLiterals ends.now }
{
    search_literals_fit(&ends.sweep);
    batches_literals_fit(&ends.batches);
    prover_literals_fit(&ends.prover);
}
