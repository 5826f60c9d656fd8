// A ring of workers runs.

ghost use Rattle.std.specs.Prelude.{IfOk};
ghost use Rattle.strc_run_links.specs.States.{IsRing};
ghost use Rattle.strc_run_links.specs.Seats.{IsReady, IsEnded};

use crate::collector_thread::collect;
use crate::failure::Failure;
use crate::leftover_parts::settle;
use crate::ring_links::seat_all;
use crate::shapes::{Ended, Ready};
use crate::stacks::{Deep, Stacks};
use crate::worker_join::{join_all, join_early};
use crate::worker_start::start_all;
use crate::{Actor, Gate, Parts, Start};
use std::alloc::Global;
use std::snapshot::Snapshot;
use std::sync::Wait;
use std::thread;
use std::thread::{Scope, Threads};

/// A worker for each stage, in a thread of its own, and the collector in this one, until all have
/// ended. It waits. Each step of a stage is the gate's.
pub fn run_ring<S: Actor + Send, C: Actor + Send, G: Gate<S>, R: Threads + Wait + Sync>(
    rt: &R,
    alloc: Global,
    start: Start<S, C>,
    gate: &G,
) -> Result<Parts<S, C>, Failure>
    ensures { IfOk result (λ parts. IsRing S.does C.does start parts) }
{
    run_ring_on(rt, alloc, start, gate, &Deep)
}

/// A ring that runs as by `run_ring`, with threads on stacks of these sizes.
pub fn run_ring_on<
    S: Actor + Send,
    C: Actor + Send,
    G: Gate<S>,
    K: Stacks,
    R: Threads + Wait + Sync,
>(rt: &R, alloc: Global, start: Start<S, C>, gate: &G, stacks: &K) -> Result<Parts<S, C>, Failure>
    ensures { IfOk result (λ parts. IsRing S.does C.does start parts) }
{
    let ours = Snapshot::of(&start);
    let theirs = Snapshot::of(&start);
    let ready = seat_all(rt, alloc, start)?;
    let ended = thread::scope(
        thread::scope_env(),
        rt,
        |scope| -> Result<Ended<S, C>, Failure>
            requires { IsReady theirs.value ready }
            ensures { IfOk result (λ ended. IsEnded S.does C.does theirs.value ended) }
        { conduct(rt, alloc, scope, theirs, ready, gate, stacks) },
    )?;
    Ok(settle(rt, alloc, ours, ended)?)
}

/// Starts the workers, collects, and joins the workers.
fn conduct<
    's,
    S: Actor + Send + 's,
    C: Actor + Send,
    G: Gate<S>,
    K: Stacks,
    R: Threads + Wait + Sync,
    E: 's,
>(
    rt: &'s R,
    alloc: Global,
    scope: &Scope<'s, E>,
    start: Snapshot<Start<S, C>>,
    ready: Ready<S, C>,
    gate: &'s G,
    stacks: &K,
) -> Result<Ended<S, C>, Failure>
    requires { IsReady start.value ready }
    ensures { IfOk result (λ ended. IsEnded S.does C.does start.value ended) }
{
    let seated = Snapshot::of(&ready);
    let Ready {
        seats,
        collector,
        rx,
        tx,
    } = ready;
    match start_all(rt, alloc, scope, seats, gate, stacks) {
        Ok(children) => {
            let collected = collect(rt, alloc, collector, rx, tx);
            join_all(rt, start, seated, children, collected)
        }
        Err((failure, children)) => {
            drop((tx, rx));
            join_early(rt, children);
            Err(failure)
        }
    }
}
