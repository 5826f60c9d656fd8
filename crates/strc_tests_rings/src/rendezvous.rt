// Two workers are in rounds at once.

use crate::toy_rings::ring;
use crate::toy_stages::Marker;
use std::alloc::Global;
use std::sync::atomic::{AtomicU64, Ordering};
use std::test::Fail;
use std::thread;
use strc_run_links::{Actor, Gate, run_ring};
use strc_stage_core::Parcel;

/// The first worker's second round waits for the second worker's first, and that one for it.
#[derive(Drop)]
struct Meeting {
    first: AtomicU64,
    second: AtomicU64,
    met: AtomicU64,
}

impl Meeting {
    fn meet(&self, mine: &AtomicU64, other: &AtomicU64) {
        mine.store(1, Ordering::SeqCst);
        for _ in 0..100_000_000u32 {
            if other.load(Ordering::SeqCst) == 1 {
                self.met.fetch_add(1, Ordering::SeqCst);
                return;
            }
            thread::yield_now();
        }
    }
}

impl Gate<Marker> for Meeting {
    fn step(
        &self,
        alloc: Global,
        at: u32,
        round: u32,
        actor: &mut Marker,
        parcel: Parcel,
    ) -> Parcel {
        match (at, round) {
            (0, 1) => self.meet(&self.first, &self.second),
            (1, 0) => self.meet(&self.second, &self.first),
            _ => {}
        }
        actor.step(alloc, parcel)
    }
}

#[test]
fn two_workers_are_in_rounds_at_once(rt: HostRuntime) -> Result<(), Fail> {
    let alloc = rt.alloc();
    let start = ring(alloc, 2, 3).ok_or("no memory for a ring")?;
    let gate = Meeting {
        first: AtomicU64::new(0),
        second: AtomicU64::new(0),
        met: AtomicU64::new(0),
    };
    let parts = run_ring(&rt, alloc, start, &gate).ok().ok_or("no parts")?;
    assert_eq!(rt; parts.collector.good, 3);
    assert_eq!(rt; gate.met.load(Ordering::SeqCst), 2);
    Ok(())
}
