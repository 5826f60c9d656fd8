// Rings of toys, in threads.

use crate::toy_stages::{Counter, Marker};
use std::alloc::Global;
use std::test::Fail;
use strc_run_links::{Failure, OpenGate, Parts, Stacks, Start, run_ring, run_ring_on};
use strc_stage_core::Parcel;

fn markers(alloc: Global, count: u32, rounds: u32) -> Option<Vec<Marker>> {
    let mut stages = Vec::new(alloc);
    for _ in 0..count {
        stages
            .push(Marker {
                left: rounds,
                round: 0,
            })
            .ok()?;
    }
    Some(stages)
}

/// Two parcels for each stage, with room for a mark of each.
fn parcels(alloc: Global, stages: u32) -> Option<Vec<Parcel>> {
    let mut free = Vec::new(alloc);
    for _ in 0..stages {
        free.push(Parcel::new(alloc, &[stages as usize], 0)).ok()?;
        free.push(Parcel::new(alloc, &[stages as usize], 0)).ok()?;
    }
    Some(free)
}

pub fn ring(alloc: Global, count: u32, rounds: u32) -> Option<Start<Marker, Counter>> {
    let stages = markers(alloc, count, rounds)?;
    let free = parcels(alloc, count)?;
    Some(Start {
        stages,
        free,
        collector: Counter {
            left: rounds,
            round: 0,
            stages: count as usize,
            good: 0,
        },
    })
}

fn parcels_in(parts: &Parts<Marker, Counter>) -> usize {
    let mut count = 0usize;
    for link in parts.links.iter() {
        count = count.wrapping_add(link.len());
    }
    for held in parts.held.iter() {
        count = count.wrapping_add(held.is_some() as usize);
    }
    count
}

#[test]
fn two_stages_have_three_rounds(rt: HostRuntime) -> Result<(), Fail> {
    let alloc = rt.alloc();
    let start = ring(alloc, 2, 3).ok_or("no memory for a ring")?;
    let parts = run_ring(&rt, alloc, start, &OpenGate)
        .ok()
        .ok_or("no parts")?;
    assert_eq!(rt; parts.collector.good, 3);
    assert_eq!(rt; parts.stages.len(), 2);
    assert_eq!(rt; parts.links.len(), 3);
    assert_eq!(rt; parcels_in(&parts), 4);
    Ok(())
}

/// Many more rounds than parcels: they go round.
#[test]
fn every_round_is_collected(rt: HostRuntime) -> Result<(), Fail> {
    let alloc = rt.alloc();
    for count in 1u32..7 {
        let start = ring(alloc, count, 200).ok_or("no memory for a ring")?;
        let parts = run_ring(&rt, alloc, start, &OpenGate)
            .ok()
            .ok_or("no parts")?;
        assert_eq!(rt; parts.collector.good, 200);
        assert_eq!(rt; parcels_in(&parts), (count as usize).wrapping_mul(2));
    }
    Ok(())
}

/// The stack of this worker is more than a machine has.
#[derive(Drop)]
struct RefusedAt(u32);

impl Stacks for RefusedAt {
    fn size(&self, at: u32) -> usize {
        if at == self.0 { usize::MAX } else { 1 << 20 }
    }
}

/// The workers that run already have far more rounds than parcels, and end all the same.
#[test]
fn a_refused_start_ends_the_run(rt: HostRuntime) -> Result<(), Fail> {
    let alloc = rt.alloc();
    for count in 1u32..7 {
        for at in 0..count {
            let start = ring(alloc, count, 1000).ok_or("no memory for a ring")?;
            let parts = run_ring_on(&rt, alloc, start, &OpenGate, &RefusedAt(at));
            assert!(rt; matches!(parts, Err(Failure::NoWorker)));
        }
    }
    Ok(())
}
