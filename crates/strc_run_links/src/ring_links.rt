// The links of a ring are made, and each actor gets its ends.

ghost use Rattle.std.specs.Prelude.{◌≡◌, ◌<◌, ◌++◌, [], All, IfOk, length};
ghost use Rattle.strc_run_links.specs.Ends.{sent_by, got_by, SameTx, IsLink};
ghost use Rattle.strc_run_links.specs.Seats as seats;
ghost use Rattle.strc_run_links.specs.Seats.{HasRoom, HaveRoom, IsReady, Linked, stages_of};

use crate::shapes::{Ready, Seat};
use crate::{Rx, Tx, link};
use std::alloc::Global;
use std::sync::Wait;
use strc_lex_names::memory::NoMemory;
use strc_stage_core::{Parcel, Start};

/// A link before each actor, with room for all the parcels, so that no giver has to wait. The free
/// ones are laid on the link before the first stage.
pub fn seat_all<S: Drop, C: Drop, R: Wait>(
    rt: &R,
    alloc: Global,
    start: Start<S, C>,
) -> Result<Ready<S, C>, NoMemory>
    ensures ready { IfOk result (λ ready. IsReady start ready) }
    ensures room { IfOk result (HaveRoom (length start.free.items)) }
{
    let Start {
        stages,
        free,
        collector,
    } = start;
    let room = room_for(free.len())?;
    let (tx, first) = link(alloc, room)?;
    let tx = lay(rt, tx, free)?;
    let (seats, rx) = seat(alloc, stages, &tx, first, room)?;
    Ok(Ready {
        seats,
        collector,
        rx,
        tx,
    })
}

/// More than a link can count are refused as too much for the memory.
fn room_for(count: usize) -> Result<u32, NoMemory>
    ensures some { IfOk result (λ room. 0 < room) }
    ensures all { IfOk result (λ room. room ≡ seats.room_for count) }
{
    match u32::try_from(count) {
        Ok(0) => Ok(1),
        Ok(room) => Ok(room),
        Err(_) => Err(NoMemory),
    }
}

/// Gives all these parcels.
fn lay<R: Wait>(rt: &R, tx: Tx, free: Vec<Parcel>) -> Result<Tx, NoMemory>
    ensures { IfOk result (λ laid.
        SameTx tx laid × (sent_by laid ≡ sent_by tx ++ free.items)) }
{
    let mut tx = tx;
    for parcel in free {
        match tx.give(rt, parcel) {
            Ok(()) => {}
            Err(_) => return Err(NoMemory),
        }
    }
    Ok(tx)
}

/// The seats from the link after `before` on, and the taker's end of the last link.
fn seat<S: Drop>(
    alloc: Global,
    stages: Vec<S>,
    before: &Tx,
    first: Rx,
    room: u32,
) -> Result<(Vec<Seat<S>>, Rx), NoMemory>
    requires room { 0 < room }
    requires first { IsLink before.now first × (got_by first ≡ []) }
    ensures linked { IfOk result (λ r.
        (stages_of r.0.items ≡ stages.items) × Linked before.now r.0.items r.1
        × (got_by r.1 ≡ [])) }
    ensures room { IfOk result (λ r. All (HasRoom room) r.0.items) }
{
    let mut rx = first;
    let mut seats = Vec::new(alloc);
    for stage in stages {
        let (tx, next) = link(alloc, room)?;
        seats.push(Seat { stage, rx, tx })?;
        rx = next;
    }
    Ok((seats, rx))
}
