// How many steps each stage does in threads, as a gate counts them.

use crate::outcome_text::told;
use crate::programs::case_of;
use std::alloc::Global;
use std::process::Abort;
use std::sync::Wait;
use std::sync::atomic::{AtomicU64, Ordering};
use std::test::Fail;
use std::thread::Threads;
use strc_run::run::run;
use strc_run_links::{Actor, Gate};
use strc_stage_core::Parcel;
use strc_stage_steps::Stage;

/// The steps of up to eight stages, in eight bits each, those of the first one lowest.
#[derive(Drop)]
struct Steps {
    done: AtomicU64,
}

impl Gate<Stage> for Steps {
    fn step(
        &self,
        alloc: Global,
        at: u32,
        _round: u32,
        stage: &mut Stage,
        parcel: Parcel,
    ) -> Parcel {
        let one = 1u64.wrapping_shl(at.wrapping_mul(8));
        self.done.fetch_add(one, Ordering::SeqCst);
        stage.step(alloc, parcel)
    }
}

/// Chains of five nodes, and one whose first node faults in round 20 of 100.
const CHAIN: &str = "a chain|2|1 2|-1/-2/\
    |add R; add Negative; add Negative; add Negative; add W;";

const ROUND: &str = "a round|1|1|-1/\
    |add R; add Negative; add Negative; add Negative; add W;";

const FAULT: &str = "a fault of the first stage|100||0/0/0/0/0/0/0/0/0/0/0/0/0/1/1/1/1/2/3/7/ \
    fault DivZero node 0 firing 20 round 20\
    |add Falling; add Line;";

/// A program a row, by so many workers, and the steps of its stages: each steps once a round, and
/// no more once a round has stopped it.
const ROWS: [(&str, u32, u64); 6] = [
    (CHAIN, 5, 0x02_0202_0202),
    (CHAIN, 64, 0x02_0202_0202),
    (CHAIN, 3, 0x02_0202),
    (ROUND, 2, 0x0101),
    (ROUND, 5, 0x01_0101_0101),
    (FAULT, 2, 0x1415),
];

/// The steps that a row's stages do.
fn steps_of<R: Abort + Threads + Wait + Sync>(
    rt: &R,
    alloc: Global,
    row: &str,
    workers: u32,
) -> Result<u64, Fail> {
    let case = case_of(alloc, row)?;
    let gate = Steps {
        done: AtomicU64::new(0),
    };
    let rounds = Some(case.rounds);
    let outcome = run(rt, alloc, &case.plan, &case.input, rounds, workers, &gate)?;
    assert_eq!(rt;
        told(alloc, &outcome)?.as_str(),
        case.wanted,
        "{}, {workers} workers",
        case.name
    );
    Ok(gate.done.load(Ordering::SeqCst))
}

#[test]
fn each_stage_steps_once_a_round(rt: HostRuntime) -> Result<(), Fail> {
    let alloc = rt.alloc();
    for (row, workers, wanted) in ROWS {
        let steps = steps_of(&rt, alloc, row, workers)?;
        assert_eq!(rt; steps, wanted, "{row}, {workers} workers");
    }
    Ok(())
}
