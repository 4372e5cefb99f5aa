//! The moves of a job, in order.

ghost use Rattle.std.specs.Prelude.{◌≡◌};
ghost use Rattle.job_moves.specs.Moves.{first_move, move_after, next_move, while_open, with_seed};

use crate::job::{Job, job_at};

/// One thing that a job does. A hop searches from the seed of the walk before it.
#[derive(Clone, Copy, Debug, PartialEq, Eq)]
pub enum Move {
    Zero,
    Sweep,
    Prove,
    Walk(u32),
    Hop(u32),
    AgainWalk(u32),
    AgainHop(u32),
    End,
}

/// What is known between two moves: the job's number, and its last move; whether there is a seed, for a round the one that
/// was taken and then its walk's own; whether all goals are settled.
#[derive(Clone, Copy, Debug, PartialEq, Eq)]
pub struct Facts {
    pub job: u32,
    pub batches: u32,
    pub last: Option<Move>,
    pub seeded: bool,
    pub all_settled: bool,
}

fn while_open(all_settled: bool, next: Move) -> Move
    ensures { result ≡ while_open all_settled next }
{
    if all_settled { Move::End } else { next }
}

fn with_seed(seeded: bool, next: Move) -> Move
    ensures { result ≡ with_seed seeded next }
{
    if seeded { next } else { Move::End }
}

fn first_move(job: Job, seeded: bool, all_settled: bool) -> Move
    ensures { result ≡ first_move job seeded all_settled }
{
    match job {
        Job::Zero => Move::Zero,
        Job::Sweep => while_open(all_settled, Move::Sweep),
        Job::Prove => while_open(all_settled, Move::Prove),
        Job::Walk(batch) => Move::Walk(batch),
        Job::Again(round) => while_open(all_settled, with_seed(seeded, Move::AgainWalk(round))),
    }
}

fn move_after(last: Move, seeded: bool, all_settled: bool) -> Move
    ensures { result ≡ move_after last seeded all_settled }
{
    match last {
        Move::Walk(batch) => while_open(all_settled, with_seed(seeded, Move::Hop(batch))),
        Move::AgainWalk(round) => while_open(all_settled, with_seed(seeded, Move::AgainHop(round))),
        Move::Zero | Move::Sweep | Move::Prove | Move::Hop(_) | Move::AgainHop(_) | Move::End =>
            Move::End,
    }
}

/// The move that comes next.
pub fn next_move(facts: &Facts) -> Move
    ensures { result ≡ next_move facts.now }
{
    match facts.last {
        None => first_move(
            job_at(facts.job, facts.batches),
            facts.seeded,
            facts.all_settled,
        ),
        Some(last) => move_after(last, facts.seeded, facts.all_settled),
    }
}
