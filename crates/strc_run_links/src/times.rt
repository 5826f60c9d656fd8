// How long the steps of stages are.

ghost use Rattle.std.specs.Prelude.{◌≡◌, ◌+◌, ◌-◌, ◌^◌, min};
ghost use Rattle.std.specs.Duration.{as_nanos};

use crate::{Actor, Gate};
use std::alloc::{AllocError, Global};
use std::sync::atomic::{AtomicU64, Ordering};
use std::time::{Clock, Duration, Instant};
use strc_stage_core::Parcel;

/// The most stages whose steps are counted.
pub const STAGE_LIMIT: usize = 64;

/// What the steps of a stage come to so far.
#[derive(Clone, Copy, Debug, PartialEq, Eq)]
pub struct StageTime {
    /// How many steps it took. A parcel that it passes on unread is none.
    pub steps: u64,
    /// How long they were together, in nanoseconds.
    pub nanoseconds: u64,
}

// A stage's steps and their time, as its worker adds to them.
#[derive(Drop)]
struct Tally {
    steps: AtomicU64,
    nanoseconds: AtomicU64,
}

/// A gate that measures the steps of the first 64 stages by a clock. Several workers add to it at
/// once. A sum past 64 bits stays at the greatest number, and a step at whose beginning or end the
/// clock can't be read is counted without its time.
#[derive(Drop)]
pub struct StageTimes<'c, C: Clock> {
    clock: &'c C,
    // When it was made, from which its other times count, in nanoseconds.
    made: Option<Instant>,
    // When the first step began, and when the last one ended.
    begun: AtomicU64,
    ended: AtomicU64,
    tallies: Vec<Tally>,
}

impl<'c, C: Clock> StageTimes<'c, C> {
    /// No steps so far. An error comes where memory runs out.
    pub fn new(alloc: Global, clock: &'c C) -> Result<StageTimes<'c, C>, AllocError> {
        let mut tallies = Vec::new(alloc);
        for _ in 0..STAGE_LIMIT {
            tallies.push(Tally {
                steps: AtomicU64::new(0),
                nanoseconds: AtomicU64::new(0),
            })?;
        }
        Ok(StageTimes {
            clock,
            made: Instant::now(clock).ok(),
            begun: AtomicU64::new(u64::MAX),
            ended: AtomicU64::new(0),
            tallies,
        })
    }

    /// What the steps of a stage come to, by its number from 0; none where no steps of it are
    /// counted.
    pub fn stage(&self, at: usize) -> StageTime {
        match self.tallies.get(at) {
            Some(tally) => StageTime {
                steps: tally.steps.load(Ordering::SeqCst),
                nanoseconds: tally.nanoseconds.load(Ordering::SeqCst),
            },
            None => StageTime {
                steps: 0,
                nanoseconds: 0,
            },
        }
    }

    /// Whether any step was counted.
    pub fn has_steps(&self) -> bool {
        self.tallies
            .iter()
            .any(|tally| tally.steps.load(Ordering::SeqCst) > 0)
    }

    /// How long the run has been, from the beginning of its first step to the end of its last one,
    /// in nanoseconds; 0 where no step was measured.
    pub fn run_time(&self) -> u64 {
        let ended = self.ended.load(Ordering::SeqCst);
        ended.saturating_sub(self.begun.load(Ordering::SeqCst))
    }

    /// How long it is since this was made, in nanoseconds; none where the clock can't be read.
    pub fn age(&self) -> Option<u64> {
        let made = self.made?;
        let now = Instant::now(self.clock).ok()?;
        Some(nanoseconds(now.duration_since(made)))
    }

    // One more step of a stage, which began and ended at these ages.
    fn count(&self, at: usize, before: Option<u64>, after: Option<u64>) {
        let Some(tally) = self.tallies.get(at) else {
            return;
        };
        add(&tally.steps, 1);
        if let (Some(before), Some(after)) = (before, after) {
            add(&tally.nanoseconds, after.saturating_sub(before));
            self.begun.fetch_min(before, Ordering::SeqCst);
            self.ended.fetch_max(after, Ordering::SeqCst);
        }
    }
}

impl<'c, A: Actor, C: Clock + Sync> Gate<A> for StageTimes<'c, C> {
    fn step(&self, alloc: Global, at: u32, _round: u32, actor: &mut A, parcel: Parcel) -> Parcel {
        let before = self.age();
        let made = actor.step(alloc, parcel);
        self.count(at as usize, before, self.age());
        made
    }
}

// Adds to a sum that others may add to.
fn add(sum: &AtomicU64, more: u64) {
    let _ = sum.fetch_update(Ordering::SeqCst, Ordering::SeqCst, |so_far| {
        Some(longer(so_far, more))
    });
}

// A sum of times, or the greatest number.
fn longer(so_far: u64, more: u64) -> u64
    ensures { result ≡ min (so_far + more) (2 ^ 64 - 1) }
{
    so_far.saturating_add(more)
}

// A duration in nanoseconds, or the greatest number.
fn nanoseconds(duration: Duration) -> u64
    ensures { result ≡ min (as_nanos duration) (2 ^ 64 - 1) }
{
    u64::try_from(duration.as_nanos()).unwrap_or(u64::MAX)
}
