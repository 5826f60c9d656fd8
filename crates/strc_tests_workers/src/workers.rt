// Whatever the number of workers, the outcome is the same.

ghost use Rattle.std.specs.Prelude.{◌≤◌, ◌<◌, length};
ghost use Rattle.strc_sched.specs.Plain.{need_of};

use crate::outcome_text::told;
use crate::programs::{Case, PROGRAMS, case_of, split_case_of};
use std::alloc::Global;
use std::process::Abort;
use std::sync::Wait;
use std::test::Fail;
use std::thread::Threads;
use strc_run_links::OpenGate;
use strc_run_workers::stage_rounds::run_stages;
use strc_sched::plain::input_needed;
use strc_sched_outcome::outcome::Outcome;

/// The outcome of a case by so many workers.
fn outcome_of<R: Threads + Wait + Sync>(
    rt: &R,
    alloc: Global,
    case: &Case<'_>,
    workers: u32,
) -> Result<Outcome, Fail> {
    let plan = &case.plan;
    if plan.graph().nodes().is_empty() || case.rounds == 0 || workers == 0 {
        return Err("nothing to begin with".into());
    }
    if (case.input.len() as u64) < input_needed(plan.graph(), plan.schedule(), case.rounds) {
        return Err("the input is short".into());
    }
    Ok(run_stages(
        rt,
        alloc,
        plan,
        &case.input,
        case.rounds,
        workers,
        &OpenGate,
    )?)
}

/// With each number of workers a case comes to what its row says.
fn compare_workers<R: Abort + Threads + Wait + Sync>(
    rt: &R,
    alloc: Global,
    case: &Case<'_>,
) -> Result<(), Fail> {
    for workers in [1, 2, 3, 5, 64] {
        let outcome = outcome_of(rt, alloc, case, workers)?;
        assert_eq!(rt;
            told(alloc, &outcome)?.as_str(),
            case.wanted,
            "{}, {workers} workers",
            case.name
        );
    }
    Ok(())
}

#[test]
fn any_number_of_workers_comes_to_the_same(rt: HostRuntime) -> Result<(), Fail> {
    let alloc = rt.alloc();
    for row in PROGRAMS {
        compare_workers(&rt, alloc, &case_of(alloc, row)?)?;
    }
    Ok(())
}

#[test]
fn copies_by_any_number_of_workers_come_to_the_same(rt: HostRuntime) -> Result<(), Fail> {
    let alloc = rt.alloc();
    for row in PROGRAMS {
        compare_workers(&rt, alloc, &split_case_of(alloc, row)?)?;
    }
    Ok(())
}
