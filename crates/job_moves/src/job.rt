//! The jobs of a run, by their numbers.

ghost use Rattle.std.specs.Prelude.{◌≡◌, ◌+◌, ◌*◌, ◌≤◌};
ghost use Rattle.job_moves.specs.Jobs.{job_at, later_job};

/// The zero walk, the sweep, the prover, a batch of walks from reset, and a round, which is a batch from a seed.
#[derive(Clone, Copy, Debug, PartialEq, Eq)]
pub enum Job {
    Zero,
    Sweep,
    Prove,
    Walk(u32),
    Again(u32),
}

/// How many jobs there are, with so many rounds for each batch.
pub fn job_count(batches: u32, rounds: u32) -> u32
    requires batches { batches ≤ 16 }
    requires rounds { rounds ≤ 16 }
    ensures { result ≡ 3 + batches * (1 + rounds) }
{
    3 + batches * (1 + rounds)
}

/// The job with this number.
pub fn job_at(number: u32, batches: u32) -> Job
    ensures { result ≡ job_at number batches }
{
    match number {
        0 => Job::Zero,
        1 => Job::Sweep,
        2 => Job::Prove,
        _ => later_job(number - 3, batches),
    }
}

/// The batches come in their order, and then the rounds.
fn later_job(place: u32, batches: u32) -> Job
    ensures { result ≡ later_job place batches }
{
    if place < batches {
        Job::Walk(place)
    } else {
        Job::Again(place - batches)
    }
}
