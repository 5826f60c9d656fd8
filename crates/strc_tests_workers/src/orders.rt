// Whatever the order of events, the outcome is that of one worker.

use crate::dice::{Bent, Dice};
use crate::outcome_text::told;
use crate::programs::{Case, PROGRAMS, case_of, split_case_of};
use crate::rings::{begin, random_events};
use std::alloc::Global;
use std::process::Abort;
use std::test::Fail;
use strc_sched::plain::run_plain;
use strc_sched_outcome::outcome::Outcome;
use strc_stage::pipe::Pipe;

/// How many lists of events there are for each program and number of workers.
const LISTS: u32 = 100;

/// More actors than any of these rings has, so that some events are of none.
const ACTORS: usize = 9;

/// Each of these programs ends within far fewer events.
const MOST: u32 = 100_000;

/// The outcome after random events, as many as it takes.
fn ended(alloc: Global, pipe: Pipe, dice: &mut Dice, bent: Bent) -> Result<Outcome, Fail> {
    let mut pipe = pipe;
    for _ in 0..MOST {
        random_events(alloc, &mut pipe, dice, bent, ACTORS, 32)?;
        pipe = match pipe.finish(alloc) {
            Ok(Ok(outcome)) => return Ok(outcome),
            Ok(Err(_)) => return Err("out of memory".into()),
            Err(pipe) => pipe,
        };
    }
    Err("the ring isn't over".into())
}

/// What a case comes to by random events.
fn told_at_random(
    alloc: Global,
    case: &Case<'_>,
    workers: u32,
    dice: &mut Dice,
    bent: Bent,
) -> Result<String, Fail> {
    let pipe = begin(alloc, case, workers)?;
    Ok(told(alloc, &ended(alloc, pipe, dice, bent)?)?)
}

/// Many lists of events come to this.
fn compare_lists(
    rt: &impl Abort,
    alloc: Global,
    case: &Case<'_>,
    workers: u32,
    wanted: &str,
) -> Result<(), Fail> {
    let mut dice = Dice::new(workers as u64);
    for list in 0..LISTS {
        let bent = match list % 3 {
            0 => Bent::Even,
            1 => Bent::First,
            _ => Bent::Last,
        };
        let found = told_at_random(alloc, case, workers, &mut dice, bent)?;
        assert_eq!(rt;
            found.as_str(),
            wanted,
            "{}, {workers} workers, list {list}",
            case.name
        );
    }
    Ok(())
}

/// With some numbers of workers a case comes to what it does with one.
fn compare_case(rt: &impl Abort, alloc: Global, case: &Case<'_>) -> Result<(), Fail> {
    let plan = &case.plan;
    let outcome = run_plain(
        alloc,
        plan.graph(),
        plan.schedule(),
        &case.input,
        case.rounds,
    )?;
    let wanted = told(alloc, &outcome)?;
    for workers in [2, 3, 7] {
        compare_lists(rt, alloc, case, workers, wanted.as_str())?;
    }
    Ok(())
}

#[test]
fn any_order_of_events_comes_to_the_same(rt: HostRuntime) -> Result<(), Fail> {
    let alloc = rt.alloc();
    for row in PROGRAMS {
        compare_case(&rt, alloc, &case_of(alloc, row)?)?;
    }
    Ok(())
}

#[test]
fn copies_by_any_order_of_events_come_to_the_same(rt: HostRuntime) -> Result<(), Fail> {
    let alloc = rt.alloc();
    for row in PROGRAMS {
        compare_case(&rt, alloc, &split_case_of(alloc, row)?)?;
    }
    Ok(())
}
