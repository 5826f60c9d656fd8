// Steps of stages in threads, as a gate sees them.

use crate::outcome_text::told;
use crate::programs::{Case, PROGRAMS, case_of, split_case_of};
use std::alloc::Global;
use std::process::Abort;
use std::sync::Wait;
use std::sync::atomic::{AtomicU64, Ordering};
use std::test::Fail;
use std::thread;
use std::thread::Threads;
use strc_run::run::run;
use strc_run_links::{Actor, Gate};
use strc_stage_core::Parcel;
use strc_stage_steps::Stage;

/// The first stage's second round waits for the second stage's first, and that one for it.
#[derive(Drop)]
struct Meeting {
    first: AtomicU64,
    second: AtomicU64,
    met: AtomicU64,
    steps: AtomicU64,
}

impl Meeting {
    fn meet(&self, mine: &AtomicU64, other: &AtomicU64) {
        mine.store(1, Ordering::SeqCst);
        for _ in 0..100_000_000u32 {
            if other.load(Ordering::SeqCst) == 1 {
                self.met.fetch_add(1, Ordering::SeqCst);
                return;
            }
            thread::yield_now();
        }
    }
}

impl Gate<Stage> for Meeting {
    fn step(
        &self,
        alloc: Global,
        at: u32,
        round: u32,
        stage: &mut Stage,
        parcel: Parcel,
    ) -> Parcel {
        self.steps.fetch_add(1, Ordering::SeqCst);
        match (at, round) {
            (0, 1) => self.meet(&self.first, &self.second),
            (1, 0) => self.meet(&self.second, &self.first),
            _ => {}
        }
        stage.step(alloc, parcel)
    }
}

#[test]
fn two_stages_are_in_rounds_at_once(rt: HostRuntime) -> Result<(), Fail> {
    let alloc = rt.alloc();
    let case = case_of(alloc, PROGRAMS[0])?;
    let gate = Meeting {
        first: AtomicU64::new(0),
        second: AtomicU64::new(0),
        met: AtomicU64::new(0),
        steps: AtomicU64::new(0),
    };
    let rounds = Some(case.rounds);
    let outcome = run(&rt, alloc, &case.plan, &case.input, rounds, 2, &gate)?;
    assert_eq!(rt; told(alloc, &outcome)?.as_str(), case.wanted);
    assert_eq!(rt; gate.met.load(Ordering::SeqCst), 2);
    assert_eq!(rt; gate.steps.load(Ordering::SeqCst), 4);
    Ok(())
}

/// A bit for each round of the first stage, laid to those before.
#[derive(Drop)]
struct Rounds {
    seen: AtomicU64,
}

impl Gate<Stage> for Rounds {
    fn step(
        &self,
        alloc: Global,
        at: u32,
        round: u32,
        stage: &mut Stage,
        parcel: Parcel,
    ) -> Parcel {
        if at == 0 {
            self.seen
                .fetch_add(1u64.wrapping_shl(round), Ordering::SeqCst);
        }
        stage.step(alloc, parcel)
    }
}

/// A fault in the second of a hundred rounds.
fn early_fault(alloc: Global) -> Result<Case<'static>, Fail> {
    let row = "an early fault|100|1 2 0|2/ fault DivZero node 2 firing 1 round 1\
    |add R; add Inv; add Shifted; add W;";
    let mut case = case_of(alloc, row)?;
    for _ in 0..97 {
        case.input.push(1)?;
    }
    Ok(case)
}

/// Six parcels go round, and the first one comes back good: rounds 0 to 6 begin, whatever the
/// stages' speeds, and then the stopped parcel of round 1 comes.
#[test]
fn first_stage_goes_until_a_stop_comes_back(rt: HostRuntime) -> Result<(), Fail> {
    let alloc = rt.alloc();
    let case = early_fault(alloc)?;
    let gate = Rounds {
        seen: AtomicU64::new(0),
    };
    let rounds = Some(case.rounds);
    let outcome = run(&rt, alloc, &case.plan, &case.input, rounds, 3, &gate)?;
    assert_eq!(rt; told(alloc, &outcome)?.as_str(), case.wanted);
    assert_eq!(rt; gate.seen.load(Ordering::SeqCst), 0b111_1111);
    Ok(())
}

/// How many turns a slow stage spends before each step.
const TURNS: u32 = 100_000;

/// One stage is slow.
#[derive(Drop)]
struct Slow {
    stage: u32,
    turns: AtomicU64,
}

impl Gate<Stage> for Slow {
    fn step(
        &self,
        alloc: Global,
        at: u32,
        _round: u32,
        stage: &mut Stage,
        parcel: Parcel,
    ) -> Parcel {
        if at == self.stage {
            for _ in 0..TURNS {
                self.turns.fetch_add(1, Ordering::SeqCst);
            }
        }
        stage.step(alloc, parcel)
    }
}

/// Whichever of three stages is slow, a case comes to what its row says. Gives the turns that were
/// spent.
fn compare_slow<R: Abort + Threads + Wait + Sync>(
    rt: &R,
    alloc: Global,
    case: &Case<'_>,
) -> Result<u64, Fail> {
    let mut turns = 0u64;
    for stage in 0..3 {
        let gate = Slow {
            stage,
            turns: AtomicU64::new(0),
        };
        let rounds = Some(case.rounds);
        let outcome = run(rt, alloc, &case.plan, &case.input, rounds, 3, &gate)?;
        assert_eq!(rt;
            told(alloc, &outcome)?.as_str(),
            case.wanted,
            "{}, stage {stage}",
            case.name
        );
        turns = turns.wrapping_add(gate.turns.load(Ordering::SeqCst));
    }
    Ok(turns)
}

#[test]
fn a_slow_stage_comes_to_the_same(rt: HostRuntime) -> Result<(), Fail> {
    let alloc = rt.alloc();
    for row in PROGRAMS {
        compare_slow(&rt, alloc, &case_of(alloc, row)?)?;
    }
    let turns = compare_slow(&rt, alloc, &early_fault(alloc)?)?;
    // Each stage is in the round before the fault.
    assert!(rt; turns >= 3 * TURNS as u64);
    Ok(())
}

#[test]
fn copies_with_a_slow_stage_come_to_the_same(rt: HostRuntime) -> Result<(), Fail> {
    let alloc = rt.alloc();
    for row in PROGRAMS {
        compare_slow(&rt, alloc, &split_case_of(alloc, row)?)?;
    }
    Ok(())
}
