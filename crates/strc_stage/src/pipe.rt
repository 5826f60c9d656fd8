// A plan's stages on one thread, event by event.

ghost use Rattle.std.specs.Prelude.{◌≡◌, ◌<◌, ◌≤◌, ◌^◌, ℕ, ℤ, List, length, true, false};
ghost use Rattle.std.specs.Prelude.{IfOk, IfErr};
ghost use Rattle.strc_sched_outcome.specs.declared.run_refusal.RunRefusal.TheVariants as refused;
ghost use Rattle.strc_stage_core.specs.declared.event.Event.{Event};
ghost use Rattle.strc_stage_core.specs.States.{IsStart};
ghost use Rattle.strc_stage_steps.specs.Plans.{need_of};
ghost use Rattle.strc_stage_steps.specs.Collectors.{sees};
ghost use Rattle.strc_stage_steps.specs.Stages.{see};
ghost use Rattle.strc_stage_steps.specs.Pipes.{IsSomeState};
ghost use Rattle.strc_stage_core.specs.Seeing.{core_of_parts};
ghost use Rattle.strc_stage_cut.specs.Launches.{IsLaunch, start_of};
ghost use Rattle.strc_stage.specs.Answers.{AnswersPlan};
ghost use Rattle.strc_stage.specs.Running.{EndsSo, IsBegun};
ghost use Rattle.strc_stage.specs.Piped.{HasEnded, HasFaulted, IsPipe, Happens, IsFirstOf};
ghost use Rattle.strc_stage.specs.Piped.{IsFirstState, IsRingOf};
ghost use Rattle.strc_stage.specs.Piped.{StateOf, may_happen};

use crate::collector_outcome::{faulted, outcome_of};
use std::alloc::Global;
use strc_lex_names::memory::NoMemory;
use strc_sched_outcome::outcome::Outcome;
use strc_sched_outcome::run_refusal::RunRefusal;
use strc_stage_cut::{Launch, Stages, launch};
use strc_stage_plan::plan::Plan;
use strc_stage_steps::{Collector, Event, Parts, Stage, Start};
use strc_work_meaning::fault::LocatedCause;

/// The stages of a plan after start-up, in whatever state events have led to.
#[derive(Drop)]
pub struct Pipe {
    plan: Plan,
    state: State,
}

/// What a pipe is made of, where start-up didn't fault.
#[derive(Drop)]
pub struct PipeParts {
    pub plan: Plan,
    pub ring: Parts<Stage, Collector>,
}

/// A ring of stages, or the fault of start-up.
#[derive(Drop)]
pub enum State {
    Going(strc_stage_steps::Pipe<Stage, Collector>),
    Faulted {
        node: u32,
        firing: u64,
        cause: LocatedCause,
    },
}

impl Pipe {
    /// Start-up of stages, which this thread runs, and the ring that it leaves, before any event.
    /// For no rounds, or after a fault of start-up, nothing is left to happen, and `finish` tells
    /// the outcome.
    ///
    /// Err only where memory runs out.
    pub fn new(alloc: Global, stages: Stages, input: &[i32], rounds: u32) -> Result<Pipe, NoMemory>
        ensures plan { IfOk result (λ pipe. pipe.plan ≡ stages.plan) }
        ensures first { IfOk result (λ pipe. IsFirstState stages.plan input.now rounds
            stages.workers pipe.state) }
        ensures state { IfOk result (λ pipe. IsPipe stages.plan input.now rounds
            pipe.state) }
        ensures ended { IfOk result (λ pipe. rounds ≡ 0 → HasEnded pipe.state) }
    {
        let plan = stages.plan().copy()?;
        let launched = launch(alloc, stages, input, rounds)?;
        Ok(Pipe {
            plan,
            state: state_of(alloc, launched)?,
        })
    }

    /// Lets an event happen, and answers whether it is allowed; where it isn't, nothing changes. It
    /// takes no memory of its own.
    pub fn event(&mut self, alloc: Global, event: Event) -> bool
        ensures allowed { result ≡ may_happen self.old.state event }
        ensures plan { self.new.plan ≡ self.old.plan }
        ensures happens { result ≡ true → Happens event self.old.state self.new.state }
        ensures unchanged { result ≡ false → self.new ≡ self.old }
        ensures state { (input : List ℤ) (rounds : ℕ)
            → IsPipe self.old.plan input rounds self.old.state
            → IsPipe self.old.plan input rounds self.new.state }
    {
        match &mut self.state {
            State::Going(ring) => ring.event(alloc, event),
            State::Faulted { .. } => false,
        }
    }

    /// The outcome, where the collector has given its last parcel, or start-up faulted: the answer
    /// of the stream equations, as that of one worker is. Else the pipe as it is, in which some
    /// event is allowed. `NoMemory` where memory runs out.
    pub fn finish(self, alloc: Global) -> Result<Result<Outcome, RunRefusal>, Pipe>
        ensures answer { IfOk result (λ ended. (input : List ℤ) (rounds : ℕ) → rounds < 2 ^ 32
            → need_of self.plan rounds ≤ length input → IsPipe self.plan input rounds self.state
            → IfOk ended (AnswersPlan self.plan input rounds)) }
        ensures over { IfOk result (λ _. HasEnded self.state) }
        ensures memory { IfOk result (λ ended. IfErr ended (λ refusal. refusal
            ≡ refused.NoMemory)) }
        ensures goes { IfErr result (λ pipe. (pipe ≡ self)
            × ((event : Event) × (may_happen self.state event ≡ true))) }
    {
        self.plan.known();
        let Pipe { plan, state } = self;
        match state {
            State::Going(ring) => match ring.finish() {
                Ok(collector) => Ok(collected(alloc, &plan, collector)),
                Err(ring) => Err(Pipe {
                    plan,
                    state: State::Going(ring),
                }),
            },
            State::Faulted {
                node,
                firing,
                cause,
            } => Ok(faulted(alloc, plan.graph().nodes(), node, firing, cause)),
        }
    }

    /// Its plan, and the parts of its ring as they are; after a fault of start-up the pipe as it
    /// is.
    pub fn parts(self) -> Result<PipeParts, Pipe>
        ensures plan { IfOk result (λ parts. parts.plan ≡ self.plan) }
        ensures parts { IfOk result (λ parts. IsRingOf parts.ring self.state) }
        ensures state { IfOk result (λ parts. IsSomeState (core_of_parts see sees parts.ring)) }
        ensures faulted { IfErr result (λ pipe. (pipe ≡ self) × HasFaulted self.state) }
    {
        let Pipe { plan, state } = self;
        match state {
            State::Going(ring) => Ok(PipeParts {
                plan,
                ring: ring.parts(),
            }),
            State::Faulted {
                node,
                firing,
                cause,
            } => Err(Pipe {
                plan,
                state: State::Faulted {
                    node,
                    firing,
                    cause,
                },
            }),
        }
    }

    /// A pipe of a plan and of parts in a state, with room on its links for all parcels.
    ///
    /// Err only where memory runs out.
    pub fn join(parts: PipeParts) -> Result<Pipe, NoMemory>
        requires state { IsSomeState (core_of_parts see sees parts.ring) }
        ensures plan { IfOk result (λ pipe. pipe.plan ≡ parts.plan) }
        ensures ring { IfOk result (λ pipe. IsRingOf parts.ring pipe.state) }
    {
        let PipeParts { plan, ring } = parts;
        Ok(Pipe {
            plan,
            state: State::Going(strc_stage_steps::Pipe::join(ring)?),
        })
    }

    /// The ring of stages, or the fault of start-up, taken out.
    pub fn into_state(self) -> State
        ensures { result ≡ self.state }
    {
        let Pipe { plan: _, state } = self;
        state
    }
}

/// What start-up came to, before any event.
fn state_of(alloc: Global, launched: Launch) -> Result<State, NoMemory>
    requires start { IsBegun launched }
    ensures { IfOk result (StateOf launched) }
{
    match launched {
        Launch::Going(ring) => Ok(State::Going(ring_of(alloc, ring)?)),
        Launch::Faulted {
            node,
            firing,
            cause,
        } => Ok(State::Faulted {
            node,
            firing,
            cause,
        }),
    }
}

/// A ring of stages before any event.
fn ring_of(
    alloc: Global,
    start: Start<Stage, Collector>,
) -> Result<strc_stage_steps::Pipe<Stage, Collector>, NoMemory>
    requires start { IsStart (start_of start) }
    ensures { IfOk result (IsFirstOf start) }
{
    strc_stage_steps::Pipe::new(alloc, start)
}

/// The outcome that a collector has come to.
fn collected(alloc: Global, plan: &Plan, collector: Collector) -> Result<Outcome, RunRefusal>
    ensures ending { IfOk result (EndsSo plan.now (sees collector).total (sees collector).stop) }
    ensures memory { IfErr result (λ refusal. refusal ≡ refused.NoMemory) }
{
    outcome_of(alloc, plan, collector.into_parts())
}
