// The parts of a ring, after its workers have ended.

ghost use Rattle.std.specs.Prelude.{◌≡◌, ◌++◌, [], cond, option_to_list, IfOk};
ghost use Rattle.strc_run_links.specs.Ends.{sent_by, IsLink};
ghost use Rattle.strc_run_links.specs.States.{IsRing};
ghost use Rattle.strc_run_links.specs.Seats.{AreDone, AreSettled, IsEnded};

use crate::shapes::Ended;
use crate::{Actor, Parts, Rx, Start, Tx, Worked, close};
use std::alloc::Global;
use std::snapshot::Snapshot;
use std::sync::Wait;
use strc_lex_names::memory::NoMemory;
use strc_stage_core::Parcel;

/// Closes each link, and gives what is left on it to the actor before it. A misfit is laid back in
/// front of the link that it came from.
pub fn settle<S: Actor, C: Actor, R: Wait>(
    rt: &R,
    alloc: Global,
    start: Snapshot<Start<S, C>>,
    ended: Ended<S, C>,
) -> Result<Parts<S, C>, NoMemory>
    requires { IsEnded S.does C.does start.value ended }
    ensures { IfOk result (λ parts. IsRing S.does C.does start.value parts) }
{
    let Ended { workers, collected } = ended;
    let Worked {
        actor,
        rx,
        tx,
        held,
        misfit,
    } = collected;
    let (mut parts, tx) = settle_workers(rt, alloc, start, tx, workers, &rx, actor)?;
    let left = close(rt, alloc, tx, rx)?;
    let (queue, held) = lay_back(left, held, misfit)?;
    parts.links.push(queue)?;
    parts.held.push(held)?;
    // The link before the first stage is the collector's.
    parts.links.rotate_left(1);
    Ok(parts)
}

/// The stages with the links before them and what they hold, the collector, and the giver's end of
/// the link after the last stage.
fn settle_workers<S: Actor, C: Drop, R: Wait>(
    rt: &R,
    alloc: Global,
    start: Snapshot<Start<S, C>>,
    first: Tx,
    workers: Vec<Worked<S>>,
    last: &Rx,
    collector: C,
) -> Result<(Parts<S, C>, Tx), NoMemory>
    requires { AreDone S.does first start.value.stages.items workers.items last.now }
    ensures settled { IfOk result (λ r.
        AreSettled S.does start.value.stages.items r.0 (sent_by first) (sent_by r.1)
        × IsLink r.1 last.now) }
    ensures collector { IfOk result (λ r. r.0.collector ≡ collector) }
{
    let mut before = first;
    let mut parts = Parts {
        stages: Vec::new(alloc),
        links: Vec::new(alloc),
        held: Vec::new(alloc),
        collector,
    };
    for worker in workers {
        let Worked {
            actor,
            rx,
            tx,
            held,
            misfit,
        } = worker;
        let left = close(rt, alloc, before, rx)?;
        let (queue, held) = lay_back(left, held, misfit)?;
        parts.stages.push(actor)?;
        parts.links.push(queue)?;
        parts.held.push(held)?;
        before = tx;
    }
    Ok((parts, before))
}

/// A misfit goes in front of what is left; else what a worker holds stays with it.
fn lay_back(
    left: Vec<Parcel>,
    held: Option<Parcel>,
    misfit: bool,
) -> Result<(Vec<Parcel>, Option<Parcel>), NoMemory>
    ensures queue { IfOk result (λ r.
        r.0.items ≡ cond misfit (option_to_list held) [] ++ left.items) }
    ensures held { IfOk result (λ r.
        option_to_list r.1 ≡ cond misfit [] (option_to_list held)) }
{
    if !misfit {
        return Ok((left, held));
    }
    let mut queue = left;
    if let Some(parcel) = held {
        queue.insert(0, parcel)?;
    }
    Ok((queue, None))
}
