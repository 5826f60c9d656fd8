// The workers of a ring are started.

ghost use Rattle.std.specs.Prelude.{◌≡◌, IfOk};
ghost use Rattle.strc_run_links.specs.Children.{begun_of};
ghost use Rattle.strc_run_links.specs.Seats.{DidSeat};

use crate::begun::{Begun, Child};
use crate::failure::Failure;
use crate::shapes::Seat;
use crate::stacks::Stacks;
use crate::{Actor, Gate, Worked, work};
use core::thread::Stack;
use std::alloc::Global;
use std::snapshot::Snapshot;
use std::sync::Wait;
use std::thread::{Scope, Threads};

/// A thread for each seat, in order. Where one is refused, those that run are handed back, and the
/// ends of the other seats are dropped.
pub fn start_all<'s, S: Actor + Send + 's, G: Gate<S>, K: Stacks, R: Threads + Wait + Sync, E: 's>(
    rt: &'s R,
    alloc: Global,
    scope: &Scope<'s, E>,
    seats: Vec<Seat<S>>,
    gate: &'s G,
    stacks: &K,
) -> Result<Vec<Child<S>>, (Failure, Vec<Child<S>>)>
    ensures { IfOk result (λ children. begun_of children.items ≡ seats.items) }
{
    let mut children = Vec::new(alloc);
    let mut at = 0u32;
    for seat in seats {
        if children.reserve(1).is_err() {
            return Err((Failure::NoMemory, children));
        }
        let size = stacks.size(at);
        match start(rt, alloc, scope, seat, at, gate, size) {
            Ok(child) => children.push_reserved(child),
            Err(failure) => return Err((failure, children)),
        }
        at = at.wrapping_add(1);
    }
    Ok(children)
}

fn start<'s, S: Actor + Send + 's, G: Gate<S>, R: Threads + Wait + Sync, E: 's>(
    rt: &'s R,
    alloc: Global,
    scope: &Scope<'s, E>,
    seat: Seat<S>,
    at: u32,
    gate: &'s G,
    size: usize,
) -> Result<Child<S>, Failure>
    ensures { IfOk result (λ child. child.promise.0.value ≡ seat) }
{
    let begun = Begun(Snapshot::of(&seat));
    let body = move || -> Worked<S>
        ensures { DidSeat S.does seat result }
    { work_seat(rt, alloc, seat, at, gate) };
    match Stack::new()
        .stack_size(size)
        .spawn_scoped_with(scope, begun, body)
    {
        Ok(child) => Ok(child),
        Err(_) => Err(Failure::NoWorker),
    }
}

fn work_seat<S: Actor, G: Gate<S>, R: Wait>(
    rt: &R,
    alloc: Global,
    seat: Seat<S>,
    at: u32,
    gate: &G,
) -> Worked<S>
    ensures { DidSeat S.does seat result }
{
    let Seat { stage, rx, tx } = seat;
    work(rt, alloc, stage, rx, tx, at, gate)
}
