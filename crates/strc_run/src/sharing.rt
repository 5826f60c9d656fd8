// How rounds are shared among workers and batches.

ghost use Rattle.strc_run.specs.Batches.{IsBatched};

use strc_sched_outcome::outcome::Outcome;

/// How rounds are run: by how many workers, and how many at a time.
#[derive(Clone, Copy)]
pub struct Sharing {
    /// 1 to 64 workers can run rounds.
    pub workers: u32,
    /// How many rounds each of them runs at a time.
    pub batching: Batching,
}

/// How many rounds a batch has.
#[derive(Clone, Copy)]
pub enum Batching {
    /// One: there are no batches.
    One,
    /// As many as suit the plan and the number of rounds.
    Chosen,
    /// So many, where the plan has such a batch.
    Of(u32),
}

/// By which batches the rounds of a run went.
#[derive(Clone, Copy, Debug, PartialEq, Eq)]
pub struct Batches {
    /// How many rounds there were.
    pub rounds: u32,
    /// How many rounds a batch had, 1 or more; 1 where there are no batches.
    pub each: u32,
    /// How many went one by one before the first batch.
    pub before: u32,
    /// Whether all went again, one by one: a firing faulted in a batch, the plan has no such batch,
    /// or memory or a thread was refused.
    pub fell_back: bool,
}

/// How a run ended, and by which batches it went.
#[derive(Drop)]
pub struct SharedRun {
    pub outcome: Outcome,
    pub batches: Batches,
}

/// The batches of so many rounds where one is to have so many, which came to an end or didn't.
pub(crate) fn batches_of(wanted: u32, rounds: u32, fell_back: bool) -> Batches
    ensures { IsBatched wanted rounds result }
{
    if wanted == 0 || rounds < wanted {
        return Batches {
            rounds,
            each: 1,
            before: 0,
            fell_back: false,
        };
    }
    Batches {
        rounds,
        each: wanted,
        before: rounds % wanted,
        fell_back,
    }
}
