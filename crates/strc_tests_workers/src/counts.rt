// How many events a ring has until it is over, and where its parcels are then.

use crate::outcome_text::{told, told_collector};
use crate::programs::{PROGRAMS, case_of};
use crate::rings::begin;
use std::test::Fail;
use strc_sched::plain::run_plain;
use strc_stage::pipe::State;
use strc_stage_steps::Event;

/// More events than the ring has.
const MOST: u32 = 1000;

/// Three stages and the collector: of three rounds each takes and gives three parcels, and all six
/// are on the last link then.
#[test]
fn three_rounds_are_twenty_four_events(rt: HostRuntime) -> Result<(), Fail> {
    let alloc = rt.alloc();
    let case = case_of(alloc, PROGRAMS[1])?;
    let mut pipe = match begin(alloc, &case, 3)?.into_state() {
        State::Going(pipe) => pipe,
        State::Faulted { .. } => return Err("start-up faults".into()),
    };
    let mut events = 0u32;
    for _ in 0..MOST {
        if !pipe.advance(alloc) {
            break;
        }
        events = events.wrapping_add(1);
    }
    assert_eq!(rt; events, 24);
    for actor in 0..4 {
        assert!(rt; !pipe.event(alloc, Event::Take(actor)));
        assert!(rt; !pipe.event(alloc, Event::Give(actor)));
    }
    let parts = pipe.parts();
    assert_eq!(rt; parts.links.len(), 4);
    for (number, link) in parts.links.iter().enumerate() {
        let wanted = if number == 3 { 6 } else { 0 };
        assert_eq!(rt; link.len(), wanted);
    }
    let told = told_collector(alloc, &parts.collector.into_parts())?;
    assert_eq!(rt; told.as_str(), case.wanted);
    Ok(())
}

/// The outcome is that of start-up, and no event is allowed.
#[test]
fn no_rounds_end_at_once(rt: HostRuntime) -> Result<(), Fail> {
    let alloc = rt.alloc();
    for row in PROGRAMS {
        let mut case = case_of(alloc, row)?;
        case.rounds = 0;
        let plan = &case.plan;
        let outcome = run_plain(alloc, plan.graph(), plan.schedule(), &case.input, 0)?;
        let mut pipe = begin(alloc, &case, 3)?;
        for actor in 0..5 {
            assert!(rt; !pipe.event(alloc, Event::Take(actor)));
            assert!(rt; !pipe.event(alloc, Event::Give(actor)));
        }
        match pipe.finish(alloc) {
            Ok(Ok(found)) => assert_eq!(rt;
                told(alloc, &found)?.as_str(),
                told(alloc, &outcome)?.as_str(),
                "{}",
                case.name
            ),
            _ => return Err("no outcome".into()),
        }
    }
    Ok(())
}
