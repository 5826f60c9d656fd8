// From a text to the outcome of its run by several workers.

use crate::programs::{FAULTS, SUMS_OF_SUMS, plan_of, values_of};
use crate::stages::ring_of;
use std::alloc::Global;
use std::sync::atomic::{AtomicU32, Ordering};
use std::test::Fail;
use strc_run::compile::compile;
use strc_run::options::Options;
use strc_run::refusal::Refusal;
use strc_run::run::{Outcome, Round, RunRefusal, run};
use strc_run::{Gate, OpenGate, Rx, Tx, Worked, close, link, work};
use strc_stage::{Actor, Parcel, Stage};
use strc_work::fault::Cause;

/// It counts the steps.
#[derive(Drop)]
struct Steps {
    done: AtomicU32,
}

impl Gate<Stage> for Steps {
    fn step(
        &self,
        alloc: Global,
        _at: u32,
        _round: u32,
        stage: &mut Stage,
        parcel: Parcel,
    ) -> Parcel {
        self.done.fetch_add(1, Ordering::SeqCst);
        stage.step(alloc, parcel)
    }
}

#[test]
fn a_text_without_a_main_stream_is_no_plan(rt: HostRuntime) -> Result<(), Fail> {
    let options = Options {
        main: None,
        ways: 1,
        fuse: 0,
    };
    assert!(rt; matches!(compile(rt.alloc(), b"", &options), Err(Refusal::NoMain)));
    Ok(())
}

#[test]
fn workers_give_what_one_gives(rt: HostRuntime) -> Result<(), Fail> {
    let alloc = rt.alloc();
    let input = [1, 2, 3, 4, 5, 6, 7, 8, 9, 10];
    for (ways, workers) in [(1, 1), (1, 2), (2, 3)] {
        let plan = plan_of(alloc, SUMS_OF_SUMS, ways, 0)?;
        let outcome = run(&rt, alloc, &plan, &input, None, workers, &OpenGate)?;
        assert_eq!(rt; values_of(alloc, &outcome)?.as_slice(), [42, 90].as_slice());
    }
    Ok(())
}

#[test]
fn a_gate_sees_each_step(rt: HostRuntime) -> Result<(), Fail> {
    let alloc = rt.alloc();
    let plan = plan_of(alloc, FAULTS, 1, 0)?;
    let gate = Steps {
        done: AtomicU32::new(0),
    };
    let outcome = run(&rt, alloc, &plan, &[1, 1, 1], Some(3), 3, &gate)?;
    assert_eq!(rt;
        values_of(alloc, &outcome)?.as_slice(),
        [2, 2, 2].as_slice()
    );
    assert_eq!(rt; gate.done.load(Ordering::SeqCst), 9);
    Ok(())
}

#[test]
fn faults_and_refusals_are_told(rt: HostRuntime) -> Result<(), Fail> {
    let alloc = rt.alloc();
    let plan = plan_of(alloc, FAULTS, 1, 0)?;
    let outcome = run(&rt, alloc, &plan, &[1, 2, 0], Some(3), 3, &OpenGate)?;
    let is_fault = match &outcome {
        Outcome::Fault {
            node: 2,
            firing: 1,
            round: Round::At(1),
            cause,
            ..
        } => cause.cause() == Cause::DivZero,
        _ => false,
    };
    assert!(rt; is_fault);
    let refused = run(&rt, alloc, &plan, &[1], Some(3), 65, &OpenGate);
    assert!(rt; matches!(refused, Err(RunRefusal::BadWorkers)));
    Ok(())
}

#[test]
fn links_hand_parcels_on(rt: HostRuntime) -> Result<(), Fail> {
    let alloc = rt.alloc();
    let (tx, rx): (Tx, Rx) = link(alloc, 2).ok().ok_or("no memory for a link")?;
    let (mut tx, mut rx) = (tx, rx);
    assert!(rt; tx.give(&rt, Parcel::new(alloc, &[], 0)).is_ok());
    assert!(rt; tx.give(&rt, Parcel::new(alloc, &[], 0)).is_ok());
    assert!(rt; rx.take(&rt).is_some());
    let left: Vec<Parcel> = close(&rt, alloc, tx, rx).ok().ok_or("no memory")?;
    assert_eq!(rt; left.len(), 1);
    Ok(())
}

/// A worker's body ends where nothing comes any more: what came first was stepped on and given.
#[test]
fn a_worker_steps_until_its_giver_is_gone(rt: HostRuntime) -> Result<(), Fail> {
    let alloc = rt.alloc();
    let plan = plan_of(alloc, FAULTS, 1, 0)?;
    let pipe = ring_of(alloc, &plan, &[1, 1, 1], 3)?;
    let parts = pipe.parts().ok().ok_or("start-up faults")?;
    let ring = parts.ring;
    let mut stages = ring.stages;
    if stages.is_empty() {
        return Err("no stage".into());
    }
    let stage = stages.swap_remove(0);
    let (mut giver, rx) = link(alloc, 6).ok().ok_or("no memory for a link")?;
    let (tx, mut taker) = link(alloc, 6).ok().ok_or("no memory for a link")?;
    assert!(rt; giver.give(&rt, stage.parcel(alloc)).is_ok());
    drop(giver);
    let worked: Worked<Stage> = work(&rt, alloc, stage, rx, tx, 0, &OpenGate);
    assert!(rt; worked.held.is_none() && !worked.misfit);
    assert!(rt; taker.take(&rt).is_some());
    Ok(())
}
