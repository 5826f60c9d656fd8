// The program `strc_tests_timing`: plans graphs of three shapes, of 1,024 and of 4,096 nodes, and
// programs of filters that look ahead.
// Takes the word `times`, or no word.
// Gives a line for each graph: its nodes and channels, and how often its last node fires in a
// round, the units of its schedule and the items of its buffers; and for each program how often its
// source fires before the first round. With `times` also the least of 999 times that planning took,
// and how it grew. There is no theorem here; `balance`, `startup` and `schedule` have their own.
// Stands on strc_balance, strc_startup and strc_sched_orders, which it times, on strc_elab_graph,
// whose graphs it makes, and on strc_run, which compiles the programs.
#![tactic(auto)]

mod peeks;
mod schedules;
mod shapes;

use crate::peeks::{Peeks, Primed, prime};
use crate::schedules::{Scheduled, timed_schedule};
use crate::shapes::{Shape, circle, graph_of};
use std::io::ErrorKind;
use std::process::ExitCode;
use std::time::{Duration, Instant};
use std::{env, io};
use strc_balance::balance::balance;
use strc_balance::condition::can_balance;
use strc_balance::counts::Counts;
use strc_balance::error::BalanceError;
use strc_elab_graph::graph::Graph;

const SHAPES: [Shape; 3] = [Shape::Chain, Shape::SplitJoin, Shape::Ladder];

/// How many nodes the small and the large graph of a shape have.
const SMALL: u32 = 1024;

const LARGE: u32 = 4096;

/// How often each graph is planned where times are wanted. The least time counts: the first ones
/// also wait for memory that was never touched, and any for what else the machine does.
const REPEATS: u32 = 999;

/// Programs of filters that look far ahead: the longest row that is primed, and one more.
const FAR: [Peeks; 2] = [
    Peeks {
        filters: 15,
        peek: 65_536,
    },
    Peeks {
        filters: 16,
        peek: 65_536,
    },
];

/// Programs of 1,024 and of 4,096 nodes.
const FEW_AHEAD: Peeks = Peeks {
    filters: 1022,
    peek: 200,
};

const MANY_AHEAD: Peeks = Peeks {
    filters: 4094,
    peek: 200,
};

/// What a graph's plan is, and the least time that it took.
#[derive(Clone, Copy)]
struct Plan {
    nodes: usize,
    channels: usize,
    last: u32,
    took: Duration,
    schedule: Scheduled,
}

fn main(rt: HostRuntime) -> ExitCode {
    match print_plans(&rt) {
        Ok(()) => ExitCode::SUCCESS,
        Err(error) => {
            let _ = eprintln!(rt; "strc_tests_timing: {error}");
            ExitCode::FAILURE
        }
    }
}

fn print_plans(rt: &HostRuntime) -> io::Result<()> {
    let timed = wants_times(rt)?;
    let repeats = if timed { REPEATS } else { 1 };
    for shape in &SHAPES {
        let small = plan_of(rt, *shape, SMALL, repeats)?;
        let large = plan_of(rt, *shape, LARGE, repeats)?;
        print_plan(rt, *shape, small)?;
        print_plan(rt, *shape, large)?;
        if timed {
            print_growth(rt, shape.name(), small.took, large.took)?;
            print_growth(rt, "schedule", small.schedule.took, large.schedule.took)?;
        }
    }
    print_circle(rt, timed)?;
    print_startups(rt, timed, repeats)
}

/// The schedule of a loop that starts with a single item.
fn print_circle(rt: &HostRuntime, timed: bool) -> io::Result<()> {
    let graph = match circle(rt.alloc())? {
        Some(graph) => graph,
        None => return Err(io::Error::new(ErrorKind::InvalidData, "not a graph")),
    };
    let schedule = timed_schedule(rt, &graph, 1)?;
    println!(rt; "circle: {} units", schedule.units)?;
    if timed {
        println!(rt; "circle: {} microseconds", schedule.took.as_micros())?;
    }
    Ok(())
}

fn print_startups(rt: &HostRuntime, timed: bool, repeats: u32) -> io::Result<()> {
    for peeks in &FAR {
        let far = prime(rt, *peeks, 1)?;
        print_startup(rt, *peeks, far)?;
    }
    let small = prime(rt, FEW_AHEAD, repeats)?;
    let large = prime(rt, MANY_AHEAD, repeats)?;
    print_startup(rt, FEW_AHEAD, small)?;
    print_startup(rt, MANY_AHEAD, large)?;
    if timed {
        print_growth(rt, "start-up", small.took, large.took)?;
    }
    Ok(())
}

fn print_startup(rt: &HostRuntime, peeks: Peeks, primed: Primed) -> io::Result<()> {
    match primed.source {
        Some(count) => println!(rt;
            "start-up: {} filters of peek {}, the source fires {count} times",
            peeks.filters, peeks.peek
        ),
        None => println!(rt;
            "start-up: {} filters of peek {}, a node would fire too often",
            peeks.filters, peeks.peek
        ),
    }
}

/// Whether a word of the command line is `times`.
fn wants_times(rt: &HostRuntime) -> io::Result<bool> {
    for word in env::args(rt)? {
        if word.as_str() == "times" {
            return Ok(true);
        }
    }
    Ok(false)
}

fn print_plan(rt: &HostRuntime, shape: Shape, plan: Plan) -> io::Result<()> {
    println!(rt;
        "{shape}: {} nodes, {} channels, the last fires {} times",
        plan.nodes, plan.channels, plan.last
    )?;
    let schedule = plan.schedule;
    match schedule.items {
        Some(items) => println!(rt; "  {} units, {items} items", schedule.units),
        None => println!(rt; "  too many items on channel {}", schedule.units),
    }
}

fn print_growth(rt: &HostRuntime, name: &str, small: Duration, large: Duration) -> io::Result<()> {
    let small = small.as_micros();
    let large = large.as_micros();
    println!(rt;
        "{name}: {small} and {large} microseconds, {} percent",
        large.saturating_mul(100).checked_div(small).unwrap_or(0)
    )
}

/// The plan of a graph of this shape and of so many nodes.
fn plan_of(rt: &HostRuntime, shape: Shape, nodes: u32, repeats: u32) -> io::Result<Plan> {
    let graph = match graph_of(rt.alloc(), shape, nodes)? {
        Some(graph) => graph,
        None => return Err(io::Error::new(ErrorKind::InvalidData, "not a graph")),
    };
    match can_balance(rt.alloc(), &graph) {
        Ok(true) => {}
        Ok(false) => return Err(io::Error::new(ErrorKind::InvalidData, "not to be balanced")),
        Err(_) => return Err(io::Error::from(ErrorKind::OutOfMemory)),
    }
    let mut least = Duration::MAX;
    let mut last = 0;
    for _ in 0..repeats {
        let begun = Instant::now(rt)?;
        let counts = counts_of(balance(rt.alloc(), &graph))?;
        least = least.min(begun.elapsed(rt)?);
        last = last_of(&counts);
    }
    let schedule = timed_schedule(rt, &graph, repeats)?;
    Ok(Plan {
        nodes: graph.nodes().len(),
        channels: graph.channels().len(),
        last,
        took: least,
        schedule,
    })
}

fn counts_of(answer: Result<Counts, BalanceError>) -> io::Result<Counts> {
    match answer {
        Ok(counts) => Ok(counts),
        Err(BalanceError::NoMemory) => Err(io::Error::from(ErrorKind::OutOfMemory)),
        Err(_) => Err(io::Error::new(ErrorKind::InvalidData, "not balanced")),
    }
}

/// How often the last node fires.
fn last_of(counts: &Counts) -> u32 {
    match counts.as_slice().last() {
        Some(count) => *count,
        None => 0,
    }
}
