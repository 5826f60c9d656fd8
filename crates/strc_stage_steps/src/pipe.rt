// A ring of stages on one thread.

ghost use Rattle.std.specs.Prelude.{◌≡◌, true, false, IfOk, IfErr};
ghost use Rattle.strc_stage_core.specs.declared.event.Event.{Event};
ghost use Rattle.strc_stage_core.specs.Events.{may, is_over, Happens};
ghost use Rattle.strc_stage_core.specs.States.{IsStart, first_core};
ghost use Rattle.strc_stage_steps.specs.Pipes.{Beginning, PipeView, IsStateOf, IsSomeState};
ghost use Rattle.strc_stage_steps.specs.Pipes.{KeepsStates, IsCounted, IsFirstAllowed};
ghost use Rattle.strc_stage_core.specs.Seeing.{ring_of, core_of, core_of_parts, start_of};
ghost use Rattle.strc_stage_steps.specs.Steps.{stage_work};

use crate::actors::{CollectorActor, StageActor};
use crate::empty_ring::{empty_hands, links_before};
use crate::moves::{allows, happen, has_ended};
use std::alloc::Global;
use std::marker::Model;
use strc_lex_names::memory::NoMemory;
use strc_stage_core::parts::make_room;
use strc_stage_core::{Event, Parts, Start};

/// Stages, a collector, and the parcels that go round from one to the next, in some state that
/// events lead to.
#[derive(Drop)]
pub struct Pipe<S: StageActor, C: CollectorActor> {
    parts: Parts<S, C>,
}

impl<S: StageActor, C: CollectorActor> Model for Pipe<S, C> {
    ghost use Rattle.strc_stage_steps.specs.Pipes.{IsSomeState};
    ghost use Rattle.strc_stage_core.specs.Seeing.{Ring, ring_of, core_of_parts, HasRoom};

    ghost Value = { Ring S C };

    ghost view = { λ p. ring_of p.parts };

    ghost invariant = { λ p. HasRoom S.see C.sees p.parts
        × IsSomeState (core_of_parts S.see C.sees p.parts) };
}

impl<S: StageActor, C: CollectorActor> Pipe<S, C> {
    /// Lets an event happen, and answers whether it is allowed; where it isn't, nothing changes.
    /// It takes no memory of its own.
    pub fn event(&mut self, alloc: Global, event: Event) -> bool
        ensures allowed { result ≡ may (core_of S.see C.sees self.old) event }
        ensures happens { result ≡ true → Happens stage_work (core_of S.see C.sees self.old) event
            (core_of S.see C.sees self.new) }
        ensures counted { result ≡ true
            → IsCounted (core_of S.see C.sees self.old) (core_of S.see C.sees self.new) }
        ensures unchanged { result ≡ false → self.new ≡ self.old }
        ensures state { KeepsStates (core_of S.see C.sees self.old)
            (core_of S.see C.sees self.new) }
    {
        if !allows(&self.parts, event) {
            return false;
        }
        happen(alloc, &mut self.parts, event);
        true
    }

    /// The collector, where it has given its last parcel; else the ring as it is.
    pub fn finish(self) -> Result<C, Pipe<S, C>>
        ensures over { IfOk result (λ collector. (is_over (core_of S.see C.sees self) ≡ true)
            × (collector ≡ self.collector)) }
        ensures goes { IfErr result (λ pipe. (pipe ≡ self)
            × (is_over (core_of S.see C.sees self) ≡ false)
            × ((event : Event) × (may (core_of S.see C.sees self) event ≡ true))) }
    {
        if !has_ended(&self.parts) {
            return Err(self);
        }
        let Pipe { parts } = self;
        let Parts {
            stages: _,
            links: _,
            held: _,
            collector,
        } = parts;
        Ok(collector)
    }

    /// The parts, as they are.
    pub fn parts(self) -> Parts<S, C>
        ensures parts { ring_of result ≡ self }
        ensures state { IsSomeState (core_of S.see C.sees self) }
    {
        let Pipe { parts } = self;
        parts
    }

    /// A ring of parts in a state, with room on its links for all parcels.
    pub fn join(parts: Parts<S, C>) -> Result<Pipe<S, C>, NoMemory>
        requires state { IsSomeState (core_of_parts S.see C.sees parts) }
        ensures { IfOk result (λ pipe. pipe ≡ ring_of parts) }
    {
        let mut parts = parts;
        let Some(room) = parts.stages.len().checked_mul(2) else {
            return Err(NoMemory);
        };
        make_room(&mut parts.links, room)?;
        Ok(Pipe { parts })
    }

    /// A ring before any event: the free parcels are on the link from the collector to the first
    /// stage.
    pub fn new(alloc: Global, start: Start<S, C>) -> Result<Pipe<S, C>, NoMemory>
        requires start { IsStart (start_of S.see C.sees start) }
        ensures { IfOk result (λ pipe. core_of S.see C.sees pipe
            ≡ first_core (start_of S.see C.sees start)) }
    {
        let Start {
            stages,
            free,
            collector,
        } = start;
        let links = links_before(alloc, stages.len(), free)?;
        let held = empty_hands(alloc, stages.len())?;
        Pipe::join(Parts {
            stages,
            links,
            held,
            collector,
        })
    }

    /// Lets the first event happen that is allowed, the lowest actor's; false where none is, and
    /// nothing changes then. It takes no memory of its own.
    pub fn advance(&mut self, alloc: Global) -> bool
        ensures happens { result ≡ true → (event : Event)
            × IsFirstAllowed (core_of S.see C.sees self.old) event
            × Happens stage_work (core_of S.see C.sees self.old) event
            (core_of S.see C.sees self.new) }
        ensures counted { result ≡ true
            → IsCounted (core_of S.see C.sees self.old) (core_of S.see C.sees self.new) }
        ensures none { result ≡ false
            → (event : Event) → may (core_of S.see C.sees self.old) event ≡ false }
        ensures unchanged { result ≡ false → self.new ≡ self.old }
        ensures state { KeepsStates (core_of S.see C.sees self.old)
            (core_of S.see C.sees self.new) }
    {
        for actor in 0..self.parts.held.len() {
            if self.event(alloc, Event::Give(actor)) {
                return true;
            }
            if self.event(alloc, Event::Take(actor)) {
                return true;
            }
        }
        false
    }

    /// Lets events happen until none is allowed, and gives the collector. It takes no memory of its
    /// own.
    pub fn drive(self, alloc: Global) -> C
        ensures { (start : Beginning) → IsStateOf start (core_of S.see C.sees self)
            → (core : PipeView) × IsStateOf start core × (is_over core ≡ true)
            × (core.collector ≡ C.sees result) }
    {
        let mut pipe = self;
        while pipe.advance(alloc) {}
        match pipe.finish() {
            Ok(collector) => collector,
            Err(_) => unreachable!(),
        }
    }
}
