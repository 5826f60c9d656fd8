// A ring of stages on one thread, event by event.

use crate::programs::{FAULTS, plan_of, values_of};
use std::alloc::Global;
use std::test::Fail;
use strc_run::run::RunRefusal;
use strc_sched::outcome::Outcome;
use strc_stage::pipe::{Pipe, PipeParts};
use strc_stage::plan::Plan;
use strc_stage::{Actor, Collector, Event, Parcel, Parts, Stage, Stages, cut};

/// The ring of a plan by three workers, over this input, before any event.
pub(crate) fn ring_of(
    alloc: Global,
    plan: &Plan,
    input: &[i32],
    rounds: u32,
) -> Result<Pipe, Fail> {
    if plan.graph().nodes().is_empty() {
        return Err("nothing to begin with".into());
    }
    let stages: Stages = cut(alloc, plan, 3)?;
    Ok(Pipe::new(alloc, stages, input, rounds)?)
}

/// How many of the events of four actors happen, where each is tried in turn.
fn advance(alloc: Global, pipe: &mut Pipe) -> u32 {
    let mut count = 0u32;
    for actor in 0..4usize {
        count = count.wrapping_add(pipe.event(alloc, Event::Take(actor)) as u32);
        count = count.wrapping_add(pipe.event(alloc, Event::Give(actor)) as u32);
    }
    count
}

/// Lets events happen until none is allowed. Gives how many there were.
fn advance_all(alloc: Global, pipe: &mut Pipe) -> u32 {
    let mut count = 0u32;
    for _ in 0..1000u32 {
        let more = advance(alloc, pipe);
        if more == 0 {
            return count;
        }
        count = count.wrapping_add(more);
    }
    count
}

/// Three stages and the collector each take and give three parcels.
#[test]
fn a_ring_ends_with_the_outcome(rt: HostRuntime) -> Result<(), Fail> {
    let alloc = rt.alloc();
    let plan = plan_of(alloc, FAULTS, 1, 0)?;
    let mut pipe = ring_of(alloc, &plan, &[1, 1, 1], 3)?;
    assert!(rt; !pipe.event(alloc, Event::Give(0)));
    assert!(rt; pipe.event(alloc, Event::Take(0)));
    assert!(rt; !pipe.event(alloc, Event::Take(0)));
    assert_eq!(rt; advance_all(alloc, &mut pipe), 23);
    let Ok(ended) = pipe.finish(alloc) else {
        return Err("not over".into());
    };
    let outcome: Result<Outcome, RunRefusal> = ended;
    let outcome = outcome.ok().ok_or("refused")?;
    assert_eq!(rt;
        values_of(alloc, &outcome)?.as_slice(),
        [2, 2, 2].as_slice()
    );
    Ok(())
}

/// A ring that is taken apart in the middle and joined again goes on to its end.
#[test]
fn a_ring_is_taken_apart_and_joined(rt: HostRuntime) -> Result<(), Fail> {
    let alloc = rt.alloc();
    let plan = plan_of(alloc, FAULTS, 1, 0)?;
    let mut pipe = ring_of(alloc, &plan, &[1, 1, 1], 3)?;
    let before = advance(alloc, &mut pipe);
    let Err(pipe) = pipe.finish(alloc) else {
        return Err("over too soon".into());
    };
    let Ok(parts): Result<PipeParts, Pipe> = pipe.parts() else {
        return Err("start-up faults".into());
    };
    assert_eq!(rt; parts.ring.links.len(), 4);
    assert_eq!(rt; parts.ring.held.len(), 4);
    let Ok(mut pipe) = Pipe::join(parts) else {
        return Err("no memory".into());
    };
    assert_eq!(rt; before.wrapping_add(advance_all(alloc, &mut pipe)), 24);
    let Ok(ended) = pipe.finish(alloc) else {
        return Err("not over".into());
    };
    let outcome = ended.ok().ok_or("refused")?;
    assert_eq!(rt;
        values_of(alloc, &outcome)?.as_slice(),
        [2, 2, 2].as_slice()
    );
    Ok(())
}

/// What a stage makes of a parcel, where it can step on it.
fn stepped(alloc: Global, stage: &mut Stage, parcel: Parcel) -> Result<Parcel, Fail> {
    if stage.finished() || stage.halted() || !stage.fits(&parcel) {
        return Err("no step".into());
    }
    Ok(stage.step(alloc, parcel))
}

/// A parcel goes by hand through all stages to the collector, and back.
#[test]
fn stages_and_the_collector_step(rt: HostRuntime) -> Result<(), Fail> {
    let alloc = rt.alloc();
    let plan = plan_of(alloc, FAULTS, 1, 0)?;
    let pipe = ring_of(alloc, &plan, &[1, 1, 1], 3)?;
    let parts = pipe.parts().ok().ok_or("start-up faults")?;
    let ring: Parts<Stage, Collector> = parts.ring;
    let mut stages = ring.stages;
    let mut parcel = stages.first().ok_or("no stage")?.parcel(alloc);
    for stage in stages.iter_mut() {
        parcel = stepped(alloc, stage, parcel)?;
    }
    assert!(rt; !parcel.stopped() && !parcel.last());
    let mut collector = ring.collector;
    if collector.finished() {
        return Err("no step".into());
    }
    let back = collector.step(alloc, parcel);
    assert!(rt; !back.stopped());
    Ok(())
}
