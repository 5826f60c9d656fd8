// What is allowed to a ring's parts, and the moves of its events.

ghost use Rattle.std.specs.Prelude.{◌≡◌, false, true, map};
ghost use Rattle.strc_stage_core.specs.Events.{is_finished, is_over, HasRounds, Does, may, Happens};
ghost use Rattle.strc_stage_core.specs.Events.{Takes, Gives};
ghost use Rattle.strc_stage_core.specs.declared.event.Event.TheVariants.{Take, Give};
ghost use Rattle.strc_stage_core.specs.Moves.{rooms};
ghost use Rattle.strc_stage_steps.specs.Pipes.{IsSomeState};
ghost use Rattle.strc_stage_core.specs.Seeing.{core_of_parts, HasRoom};
ghost use Rattle.strc_stage_steps.specs.Steps.{stage_work};

use crate::actors::{CollectorActor, StageActor};
use std::alloc::Global;
use strc_stage_core::parts::{
    can_give, can_take, hand_is_free, hold, lay, link_before, pull, release,
};
use strc_stage_core::{Event, Parcel, Parts};

/// Has this actor taken its last parcel? There is none past the collector.
fn is_done<S: StageActor, C: CollectorActor>(parts: &Parts<S, C>, actor: usize) -> bool
    requires { is_finished actor (map S.see parts.now.stages.items) (C.sees parts.now.collector)
        ≡ false
        → HasRounds actor (map S.see parts.now.stages.items) (C.sees parts.now.collector) }
    ensures { result ≡ is_finished actor (map S.see parts.now.stages.items)
        (C.sees parts.now.collector) }
{
    if actor < parts.stages.len() {
        parts.stages[actor].finished()
    } else if actor == parts.stages.len() {
        parts.collector.finished()
    } else {
        true
    }
}

/// Has the collector given its last parcel?
pub(crate) fn has_ended<S: StageActor, C: CollectorActor>(parts: &Parts<S, C>) -> bool
    requires { IsSomeState (core_of_parts S.see C.sees parts.now) }
    ensures { result ≡ is_over (core_of_parts S.see C.sees parts.now) }
{
    is_done(parts, parts.stages.len()) && hand_is_free(&parts.held, parts.stages.len())
}

/// Is this event allowed?
pub(crate) fn allows<S: StageActor, C: CollectorActor>(parts: &Parts<S, C>, event: Event) -> bool
    requires { IsSomeState (core_of_parts S.see C.sees parts.now) }
    ensures { result ≡ may (core_of_parts S.see C.sees parts.now) event }
{
    match event {
        Event::Take(actor) => can_take(
            &parts.links,
            &parts.held,
            parts.stages.len(),
            actor,
            is_done(parts, actor),
        ),
        Event::Give(actor) => can_give(&parts.held, actor),
    }
}

/// An event that is allowed happens. It takes no memory.
pub(crate) fn happen<S: StageActor, C: CollectorActor>(
    alloc: Global,
    parts: &mut Parts<S, C>,
    event: Event,
)
    requires state { IsSomeState (core_of_parts S.see C.sees parts.old) }
    requires roomy { HasRoom S.see C.sees parts.old }
    requires allowed { may (core_of_parts S.see C.sees parts.old) event ≡ true }
    ensures happens { Happens stage_work (core_of_parts S.see C.sees parts.old) event
        (core_of_parts S.see C.sees parts.new) }
    ensures rooms { rooms parts.new.links.items ≡ rooms parts.old.links.items }
{
    match event {
        Event::Take(actor) => take(alloc, parts, actor),
        Event::Give(actor) => give(parts, actor),
    }
}

/// An actor takes the first parcel of the link before it, and holds what it makes of it.
fn take<S: StageActor, C: CollectorActor>(alloc: Global, parts: &mut Parts<S, C>, actor: usize)
    requires state { IsSomeState (core_of_parts S.see C.sees parts.old) }
    requires allowed { may (core_of_parts S.see C.sees parts.old) (Take actor) ≡ true }
    ensures takes { Takes stage_work (core_of_parts S.see C.sees parts.old) actor
        (core_of_parts S.see C.sees parts.new) }
    ensures rooms { rooms parts.new.links.items ≡ rooms parts.old.links.items }
{
    let from = link_before(parts.stages.len(), actor);
    let parcel = pull(&mut parts.links, from);
    let made = act(alloc, parts, actor, parcel);
    hold(&mut parts.held, actor, made);
}

/// An actor's step.
fn act<S: StageActor, C: CollectorActor>(
    alloc: Global,
    parts: &mut Parts<S, C>,
    actor: usize,
    parcel: Parcel,
) -> Parcel
    requires { HasRounds actor (map S.see parts.old.stages.items) (C.sees parts.old.collector) }
    ensures does { Does stage_work actor (map S.see parts.old.stages.items)
        (C.sees parts.old.collector) parcel (map S.see parts.new.stages.items)
        (C.sees parts.new.collector) result }
    ensures links { parts.new.links ≡ parts.old.links }
    ensures held { parts.new.held ≡ parts.old.held }
{
    if actor < parts.stages.len() {
        parts.stages[actor].step(alloc, parcel)
    } else {
        parts.collector.step(alloc, parcel)
    }
}

/// An actor gives what it holds to the link after it.
fn give<S: StageActor, C: CollectorActor>(parts: &mut Parts<S, C>, actor: usize)
    requires state { IsSomeState (core_of_parts S.see C.sees parts.old) }
    requires roomy { HasRoom S.see C.sees parts.old }
    requires allowed { may (core_of_parts S.see C.sees parts.old) (Give actor) ≡ true }
    ensures gives { Gives (core_of_parts S.see C.sees parts.old) actor
        (core_of_parts S.see C.sees parts.new) }
    ensures rooms { rooms parts.new.links.items ≡ rooms parts.old.links.items }
{
    let parcel = release(&mut parts.held, actor);
    lay(&mut parts.links, actor, parcel);
}
