// A worker's whole body.

ghost use Rattle.std.specs.Prelude.{◌≡◌, false};
ghost use Rattle.strc_run_links.specs.Working.{Did, Unfit, worked};

use crate::gate::Gate;
use crate::worker_end::Worked;
use crate::{Rx, Tx};
use std::alloc::Global;
use std::sync::Wait;
use strc_stage_core::{Actor, Parcel};

/// Takes, steps and gives, until the actor has finished, an end fails, or a parcel that was taken
/// doesn't fit. It may wait. Each step of actor `at` is the gate's.
pub fn work<A: Actor, G: Gate<A>, R: Wait>(
    rt: &R,
    alloc: Global,
    actor: A,
    rx: Rx,
    tx: Tx,
    at: u32,
    gate: &G,
) -> Worked<A>
    ensures did { Did A.does actor rx tx result }
    ensures unfit { Unfit A.takes result }
{
    let mut actor = actor;
    let mut rx = rx;
    let mut tx = tx;
    let mut round = 0u32;
    for _ in rt.forever() {
        if actor.finished() {
            return ended(actor, rx, tx, None, false);
        }
        let Some(parcel) = rx.take(rt) else {
            return ended(actor, rx, tx, None, false);
        };
        if !actor.fits(&parcel) {
            return ended(actor, rx, tx, Some(parcel), true);
        }
        let made = step_by(alloc, &mut actor, parcel, at, round, gate);
        round = round.wrapping_add(1);
        match tx.give(rt, made) {
            Ok(()) => {}
            Err(back) => return ended(actor, rx, tx, Some(back), false),
        }
    }
    unreachable!()
}

/// A step, of the gate where it is no mere passing on.
fn step_by<A: Actor, G: Gate<A>>(
    alloc: Global,
    actor: &mut A,
    parcel: Parcel,
    at: u32,
    round: u32,
    gate: &G,
) -> Parcel
    requires open { A.has_finished actor.old ≡ false }
    ensures { A.does actor.old parcel actor.new result }
{
    if parcel.stopped() || actor.halted() {
        actor.step(alloc, parcel)
    } else {
        gate.step(alloc, at, round, actor, parcel)
    }
}

fn ended<A: Drop>(actor: A, rx: Rx, tx: Tx, held: Option<Parcel>, misfit: bool) -> Worked<A>
    ensures { result ≡ worked actor rx tx held misfit }
{
    Worked {
        actor,
        rx,
        tx,
        held,
        misfit,
    }
}
