// A stage of a plan, as it runs.

ghost use Rattle.std.specs.Prelude.{◌≡◌, IfOk};
ghost use Rattle.strc_stage_core.specs.Parcels.{ParcelView, empty_load, parcel};

use crate::blocks::{fit_blocks, free_parcel};
use crate::stage_step::step_parts;
use crate::{Crossing, StageActor, TapeOf};
use std::alloc::Global;
use std::marker::Model;
use strc_sched_machine::batches::Order;
use strc_sched_machine::machine::Machine;
use strc_sched_outcome::stop::Stop;
use strc_sched_rings::circuit::Circuit;
use strc_stage_core::{Actor, Parcel};

/// What a stage is made of.
#[derive(Drop)]
pub struct StageParts {
    /// Its nodes, the rings at their ports, and the program's input where it reads.
    pub circuit: Circuit,
    /// The firings of its nodes in a round.
    pub order: Order,
    /// The channels that come from other stages, and those that go there.
    pub entering: Vec<Crossing>,
    pub leaving: Vec<Crossing>,
    /// The tapes of its nodes.
    pub tapes: Vec<TapeOf>,
    /// What its nodes keep, and its rings.
    pub machine: Machine,
    /// The blocks of a parcel, and how many tapes it has words of.
    pub blocks: Vec<Block>,
    pub tape_count: usize,
    /// Is it the first of its ring?
    pub first: bool,
    /// How many rounds there are.
    pub rounds: u32,
    /// How many parcels it has taken.
    pub taken: u32,
    /// The stop of the parcel that it made last.
    pub stop: Option<Stop>,
    /// A step of its own was stopped: what the machine holds counts no more.
    pub broken: bool,
    /// Has it given its last parcel?
    pub finished: bool,
}

/// A block of a parcel that comes to a stage: how many items of a round it has room for, and
/// whether it holds them.
#[derive(Clone, Copy)]
pub struct Block {
    pub room: usize,
    pub held: bool,
}

/// A stage of a plan: it keeps its nodes and the channels that end there. Each of its steps does
/// the firings of its nodes in a round.
#[derive(Drop)]
pub struct Stage {
    parts: StageParts,
}

impl Model for Stage {
    ghost use Rattle.std.specs.Coded.{codes};
    ghost use Rattle.strc_elab_graph.specs.contracts.graph.Node as node;
    ghost use Rattle.strc_stage_steps.specs.declared.stage.StageParts.{StageParts};

    ghost Value = { StageParts };

    ghost coded = { Prim.hlevel (codes, node.the_row.coded) };

    ghost use Rattle.strc_stage_steps.specs.Stages.{IsStage};

    ghost view = { λ s. s.parts };

    ghost invariant = { λ s. IsStage s.parts };
}

impl Stage {
    ghost use Rattle.strc_stage_steps.specs.Stages.{IsStage};
    ghost use Rattle.strc_stage_steps.specs.Blocks.{IsFreeFor};

    /// A stage of these parts: its machine and its order are of its circuit.
    pub fn new(parts: StageParts) -> Stage
        requires { IsStage parts }
        ensures { result ≡ parts }
    {
        Stage { parts }
    }

    /// A parcel that it can take in its first round, where nothing comes from other stages: empty,
    /// with room for the items of a round. Where memory is refused, an empty one that is stopped.
    pub fn parcel(&self, alloc: Global) -> Parcel
        ensures { IsFreeFor self.now result }
    {
        free_parcel(alloc, &self.parts)
    }
}

impl Actor for Stage {
    ghost use Rattle.std.specs.Prelude.{is_some, nat_le, ◌||◌};
    ghost use Rattle.strc_stage_steps.specs.Memory.{IsStep};
    ghost use Rattle.strc_stage_steps.specs.Blocks.{fits};

    ghost does = { IsStep };

    ghost has_finished = { λ s. s.finished || nat_le s.rounds s.taken };

    ghost has_halted = { λ s. is_some s.stop };

    ghost takes = { fits };

    fn finished(&self) -> bool {
        self.parts.finished || self.parts.rounds <= self.parts.taken
    }

    fn halted(&self) -> bool {
        self.parts.stop.is_some()
    }

    fn fits(&self, parcel: &Parcel) -> bool {
        parcel.stopped()
            || (self.parts.taken < self.parts.rounds && fit_blocks(&self.parts.blocks, parcel))
    }

    fn step(&mut self, alloc: Global, parcel: Parcel) -> Parcel {
        step_parts(&mut self.parts, alloc, parcel)
    }
}

impl StageActor for Stage {
    ghost use Rattle.strc_stage_steps.specs.Stages.{see};
    ghost use Rattle.strc_stage_steps.specs.Going.{not_finished, has_finished};

    ghost see = { see };

    ghost steps = { λ stage parcel later result does. does.step };

    ghost goes = { λ stage going left. not_finished stage.finished stage.rounds stage.taken going
        left };

    ghost ends = { λ stage ended. has_finished stage.finished stage.rounds stage.taken ended };
}
