//! The blocks of goals, as the posts settle them.

ghost use Rattle.std.specs.Prelude.{◌≡◌, ◌<◌, true, All, length, count_by};
ghost use Rattle.run_report.specs.Blocks.{AreAfter, after_post, block_by, block_of_post};
ghost use Rattle.run_report.specs.Report.{is_open, is_reached, is_unreachable};
ghost use Rattle.run_report.specs.declared.posts.Post.{Post};
ghost use Rattle.report_text.specs.declared.report.GoalBlock.{GoalBlock};

use crate::posts::{Basis, Post, Posts};
use report_text::GoalBlock;

/// The block of a goal whose first entry has this number.
fn block_by(number: u64, basis: Basis) -> GoalBlock
    ensures { result ≡ block_by number basis }
{
    match basis {
        Basis::Witness(witness) => GoalBlock::Reached { number, witness },
        Basis::Proof(proof) => GoalBlock::Unreachable {
            number,
            inv: 0,
            proof,
        },
    }
}

pub(crate) fn is_reached(block: &GoalBlock) -> bool
    ensures { result ≡ is_reached block.now }
{
    match block {
        GoalBlock::Reached { .. } => true,
        GoalBlock::Unreachable { .. } | GoalBlock::Open { .. } => false,
    }
}

pub(crate) fn is_unreachable(block: &GoalBlock) -> bool
    ensures { result ≡ is_unreachable block.now }
{
    match block {
        GoalBlock::Unreachable { .. } => true,
        GoalBlock::Reached { .. } | GoalBlock::Open { .. } => false,
    }
}

fn is_open(block: &GoalBlock) -> bool
    ensures { result ≡ is_open block.now }
{
    match block {
        GoalBlock::Open { .. } => true,
        GoalBlock::Reached { .. } | GoalBlock::Unreachable { .. } => false,
    }
}

/// A post settles its goal, unless an earlier one did.
fn settle_one(blocks: &mut Vec<GoalBlock>, post: Post)
    requires { post.entry.goal < length blocks.old.items }
    ensures { blocks.new.items ≡ after_post blocks.old.items post }
{
    let goal = post.entry.goal as usize;
    if is_open(&blocks[goal]) {
        blocks[goal] = block_by(post.entry.number, post.basis);
    }
}

/// The blocks of open goals after all posts.
pub(crate) fn settle(opens: Vec<GoalBlock>, posts: Posts) -> Vec<GoalBlock>
    requires goals { All (λ (p : Post). p.entry.goal < length opens.items) posts }
    requires open { All (λ (b : GoalBlock). is_open b ≡ true) opens.items }
    ensures { AreAfter opens.items posts result.items }
{
    let mut blocks = opens;
    for post in posts.into_vec() {
        settle_one(&mut blocks, post);
    }
    blocks
}

pub(crate) fn reached_among(blocks: &[GoalBlock]) -> usize
    ensures { result ≡ count_by is_reached blocks.now }
{
    blocks.iter().filter(|block| is_reached(block)).count()
}

pub(crate) fn unreachable_among(blocks: &[GoalBlock]) -> usize
    ensures { result ≡ count_by is_unreachable blocks.now }
{
    blocks.iter().filter(|block| is_unreachable(block)).count()
}
