//! What settles goals, and the history of it.

ghost use Rattle.std.specs.Prelude.{◌≡◌, IfOk};
ghost use Rattle.run_report.specs.Posts.{entries_of, post_of, posts_of};

use aig_model::Trace;
use board_core::{Entries, Entry, Source};
use ketch_base::{OutOfMemory, Sequence};
use std::alloc::Global;

/// A trace that shows a goal, or a proof that clauses exclude it.
#[derive(Debug, Drop)]
pub enum Basis {
    Witness(Trace),
    Proof(lrat_text::Proof),
}

/// A goal, what settled it, and what shows that it is settled.
#[derive(Debug, Drop)]
pub struct Finding {
    pub goal: u32,
    pub source: Source,
    pub basis: Basis,
}

pub type Findings = Sequence<Finding>;

/// An entry of the history, and what shows it.
#[derive(Debug, Drop)]
pub struct Post {
    pub entry: Entry,
    pub basis: Basis,
}

pub type Posts = Sequence<Post>;

/// The post of a caller who has seen all entries before it.
fn post_of(number: u64, finding: Finding) -> Post
    ensures { result ≡ post_of number finding }
{
    let entry = Entry {
        number,
        caller: 0,
        goal: finding.goal,
        kind: finding.source.kind(),
        source: finding.source,
        low: number,
    };
    Post {
        entry,
        basis: finding.basis,
    }
}

/// The posts of one caller, in the order in which it found the goals.
pub fn post_all(alloc: Global, findings: Findings) -> Result<Posts, OutOfMemory>
    ensures { IfOk result (λ posts. posts ≡ posts_of findings) }
{
    let mut posts = Posts::new(alloc);
    for finding in findings.into_vec() {
        let number = posts.len() as u64;
        posts.push(post_of(number, finding))?;
    }
    Ok(posts)
}

/// The entries alone.
pub(crate) fn entries_of(alloc: Global, posts: &Posts) -> Result<Entries, OutOfMemory>
    ensures { IfOk result (λ entries. entries ≡ entries_of posts.now) }
{
    let mut entries = Entries::new(alloc);
    for post in posts.as_slice() {
        entries.push(post.entry)?;
    }
    Ok(entries)
}
