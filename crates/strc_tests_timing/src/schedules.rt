// The schedules of graphs, and how long they take.

use std::io;
use std::io::ErrorKind;
use std::time::{Duration, Instant};
use strc_balance::balance::balance;
use strc_balance::condition::can_balance;
use strc_elab_graph::graph::Graph;
use strc_sched_orders::error::ScheduleError;
use strc_sched_orders::parts::Schedule;
use strc_sched_orders::scheduler::schedule;
use strc_startup::startup::startup;

/// How many units a schedule has, and how many items its buffers hold together; or that one would
/// hold too many; and the least of so many times that making it took.
#[derive(Clone, Copy)]
pub(crate) struct Scheduled {
    pub units: usize,
    pub items: Option<u64>,
    pub took: Duration,
}

/// The schedule of a graph.
pub(crate) fn timed_schedule(
    rt: &HostRuntime,
    graph: &Graph,
    repeats: u32,
) -> io::Result<Scheduled> {
    match can_balance(rt.alloc(), graph) {
        Ok(true) => {}
        Ok(false) => return Err(io::Error::new(ErrorKind::InvalidData, "not to be balanced")),
        Err(_) => return Err(io::Error::from(ErrorKind::OutOfMemory)),
    }
    let Ok(round) = balance(rt.alloc(), graph) else {
        return Err(io::Error::new(ErrorKind::InvalidData, "not balanced"));
    };
    let Ok(before) = startup(rt.alloc(), graph, &round) else {
        return Err(io::Error::new(ErrorKind::InvalidData, "not primed"));
    };
    let mut scheduled = Scheduled {
        units: 0,
        items: None,
        took: Duration::MAX,
    };
    // The last schedule is kept while the next one is made, so that its memory stays the process's
    // own: what is timed is planning, and not the handing out of pages.
    let mut last = schedule(rt.alloc(), graph, &before, &round);
    for _ in 0..repeats {
        let begun = Instant::now(rt)?;
        let answer = schedule(rt.alloc(), graph, &before, &round);
        let took = scheduled.took.min(begun.elapsed(rt)?);
        scheduled = reported(&answer, took)?;
        last = answer;
    }
    drop(last);
    Ok(scheduled)
}

fn reported(answer: &Result<Schedule, ScheduleError>, took: Duration) -> io::Result<Scheduled> {
    match answer {
        Ok(schedule) => Ok(Scheduled {
            units: schedule
                .startup()
                .len()
                .saturating_add(schedule.round().len()),
            items: Some(items_of(schedule.sizes())),
            took,
        }),
        Err(ScheduleError::BufferLimit { channel }) => Ok(Scheduled {
            units: *channel,
            items: None,
            took,
        }),
        Err(ScheduleError::Deadlock { .. }) => {
            Err(io::Error::new(ErrorKind::InvalidData, "a deadlock"))
        }
        Err(ScheduleError::NoMemory) => Err(io::Error::from(ErrorKind::OutOfMemory)),
    }
}

/// How many items all buffers hold.
fn items_of(sizes: &[u32]) -> u64 {
    let mut items: u64 = 0;
    for size in sizes {
        items = items.saturating_add(u64::from(*size));
    }
    items
}
