// Rings of toys run to their end.

use crate::collectors::Counter;
use crate::idle_stages::Idle;
use crate::pipes::ring;
use std::alloc::Global;
use std::test::Fail;
use strc_sched_outcome::stop::Stop;
use strc_stage_steps::{Event, Pipe};

/// How many events happen, up to so many.
fn advance_by(pipe: &mut Pipe<Idle, Counter>, alloc: Global, most: u32) -> u32 {
    for count in 0..most {
        if !pipe.advance(alloc) {
            return count;
        }
    }
    most
}

/// How many events happen where the last actor goes first.
fn go_back(pipe: &mut Pipe<Idle, Counter>, alloc: Global) -> u32 {
    let mut count = 0u32;
    for _ in 0..100u32 {
        for passed in 0..4usize {
            let actor = 3 - passed;
            count = count.wrapping_add(pipe.event(alloc, Event::Take(actor)) as u32);
            count = count.wrapping_add(pipe.event(alloc, Event::Give(actor)) as u32);
        }
    }
    count
}

/// Each of four actors takes and gives three parcels.
#[test]
fn three_rounds_are_24_events(rt: HostRuntime) -> Result<(), Fail> {
    let alloc = rt.alloc();
    let mut pipe = ring(alloc, 3, 3).ok().ok_or("no memory")?;
    assert_eq!(rt; advance_by(&mut pipe, alloc, 1000), 24);
    let collector = pipe.finish().ok().ok_or("not over")?;
    assert_eq!(rt; collector.count(), 3);
    assert!(rt; collector.stop.is_none());
    Ok(())
}

/// The third parcel is stopped, and six more are under way: each actor takes and gives nine.
#[test]
fn a_stop_in_round_2_is_72_events(rt: HostRuntime) -> Result<(), Fail> {
    let alloc = rt.alloc();
    let mut pipe = ring(alloc, 20, 2).ok().ok_or("no memory")?;
    assert_eq!(rt; advance_by(&mut pipe, alloc, 1000), 72);
    let collector = pipe.finish().ok().ok_or("not over")?;
    assert_eq!(rt; collector.count(), 2);
    assert!(rt; matches!(collector.stop, Some(Stop::NoMemory)));
    Ok(())
}

#[test]
fn the_last_actor_may_go_first(rt: HostRuntime) -> Result<(), Fail> {
    let alloc = rt.alloc();
    let mut pipe = ring(alloc, 20, 2).ok().ok_or("no memory")?;
    assert_eq!(rt; go_back(&mut pipe, alloc), 72);
    let collector = pipe.finish().ok().ok_or("not over")?;
    assert_eq!(rt; collector.count(), 2);
    assert!(rt; matches!(collector.stop, Some(Stop::NoMemory)));
    Ok(())
}

#[test]
fn no_rounds_are_no_events(rt: HostRuntime) -> Result<(), Fail> {
    let alloc = rt.alloc();
    let mut pipe = ring(alloc, 0, 0).ok().ok_or("no memory")?;
    assert_eq!(rt; advance_by(&mut pipe, alloc, 1000), 0);
    assert_eq!(rt; pipe.drive(alloc).count(), 0);
    Ok(())
}

/// It isn't over in the middle; and its parts, joined again, go on to the end.
#[test]
fn parts_go_on_where_they_were(rt: HostRuntime) -> Result<(), Fail> {
    let alloc = rt.alloc();
    let mut pipe = ring(alloc, 200, 200).ok().ok_or("no memory")?;
    assert_eq!(rt; advance_by(&mut pipe, alloc, 100), 100);
    let pipe = match pipe.finish() {
        Ok(_) => return Err("over too soon".into()),
        Err(pipe) => pipe,
    };
    let pipe = Pipe::join(pipe.parts()).ok().ok_or("no memory")?;
    assert_eq!(rt; pipe.drive(alloc).count(), 200);
    Ok(())
}
