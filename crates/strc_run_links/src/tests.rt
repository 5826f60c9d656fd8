// The times of toy stages by a clock that goes on at each look, and the lines of times.

use crate::{Actor, Gate, STAGE_LIMIT, StageTime, StageTimes, alone_line, stage_line};
use std::alloc::Global;
use std::io;
use std::sync::atomic::{AtomicU64, Ordering};
use std::test::Fail;
use std::time::{Clock, Duration};
use strc_stage_core::Parcel;

/// Each reading is a thousand nanoseconds later than the one before it; past a limit there is none.
#[derive(Drop)]
struct Ticks {
    count: AtomicU64,
    limit: u64,
}

impl Clock for Ticks {
    fn monotonic(&self) -> io::Result<Duration> {
        let count = self.count.fetch_add(1, Ordering::SeqCst);
        if count < self.limit {
            Ok(Duration::from_nanos(count.wrapping_mul(1000)))
        } else {
            Err(io::Error::from(io::ErrorKind::Unsupported))
        }
    }

    fn since_1970(&self) -> io::Result<Duration> {
        self.monotonic()
    }
}

/// Counts its steps.
#[derive(Drop)]
struct Counter {
    steps: u32,
}

impl Actor for Counter {
    ghost use Rattle.std.specs.Prelude.{false, true};

    ghost does = { λ _ _ _ _. Unit {0} };

    ghost has_finished = { λ _. false };

    ghost has_halted = { λ _. false };

    ghost takes = { λ _ _. true };

    fn finished(&self) -> bool {
        false
    }

    fn halted(&self) -> bool {
        false
    }

    fn fits(&self, _parcel: &Parcel) -> bool {
        true
    }

    fn step(&mut self, _alloc: Global, parcel: Parcel) -> Parcel {
        self.steps = self.steps.wrapping_add(1);
        parcel
    }
}

// Steps of stages 1, 1, 0 and one that isn't measured.
fn steps(alloc: Global, times: &StageTimes<'_, Ticks>, actor: &mut Counter) {
    let mut parcel = Parcel::new(alloc, &[], 0);
    for at in [1, 1, 0, STAGE_LIMIT as u32] {
        parcel = times.step(alloc, at, 0, actor, parcel);
    }
}

#[test]
fn steps_are_counted_and_measured(rt: HostRuntime) -> Result<(), Fail> {
    let alloc = rt.alloc();
    // One reading for the beginning, and then two for a step.
    for (limit, first, second, run) in [(100, 1000, 2000, 5000), (4, 0, 1000, 1000)] {
        let clock = Ticks {
            count: AtomicU64::new(0),
            limit,
        };
        let times = StageTimes::new(alloc, &clock)?;
        let mut actor = Counter { steps: 0 };
        assert!(rt; !times.has_steps());
        assert_eq!(rt; times.run_time(), 0);
        steps(alloc, &times, &mut actor);
        assert_eq!(rt; actor.steps, 4);
        assert!(rt; times.has_steps());
        assert_eq!(rt;
            times.stage(0),
            StageTime {
                steps: 1,
                nanoseconds: first
            }
        );
        assert_eq!(rt;
            times.stage(1),
            StageTime {
                steps: 2,
                nanoseconds: second
            }
        );
        assert_eq!(rt;
            times.stage(STAGE_LIMIT),
            StageTime {
                steps: 0,
                nanoseconds: 0
            }
        );
        assert_eq!(rt; times.run_time(), run);
    }
    Ok(())
}

#[test]
fn lines_tell_times(rt: HostRuntime) -> Result<(), Fail> {
    let alloc = rt.alloc();
    let time = StageTime {
        steps: 7,
        nanoseconds: 1_234_567_999,
    };
    let line = stage_line(alloc, 3, time, 2_000_000_000, b"Source, Scale")?;
    let wanted = "strc: stage 3: 7 steps in 1.234567 s, 61.7% of 2.000000 s: Source, Scale\n";
    assert_eq!(rt; line.as_slice(), wanted.as_bytes());
    let line = stage_line(alloc, 0, time, 0, b"A")?;
    let wanted = "strc: stage 0: 7 steps in 1.234567 s, 0.0% of 0.000000 s: A\n";
    assert_eq!(rt; line.as_slice(), wanted.as_bytes());
    let once = StageTime {
        steps: 1,
        nanoseconds: 2_000,
    };
    let line = stage_line(alloc, 1, once, 4_000, b"B")?;
    let wanted = "strc: stage 1: 1 step in 0.000002 s, 50.0% of 0.000004 s: B\n";
    assert_eq!(rt; line.as_slice(), wanted.as_bytes());
    let line = alone_line(alloc, 5_000_000)?;
    let wanted = "strc: the calling thread did all, in 0.005000 s with reading and writing\n";
    assert_eq!(rt; line.as_slice(), wanted.as_bytes());
    Ok(())
}
