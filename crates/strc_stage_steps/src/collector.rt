// What gathers the words of a run.

ghost use Rattle.std.specs.Prelude.{◌≡◌};
ghost use Rattle.strc_stage_steps.specs.Collectors.{begun};

use crate::CollectorActor;
use crate::collector_step::gather;
use std::alloc::Global;
use std::marker::Model;
use strc_sched_outcome::stop::Stop;
use strc_stage_core::{Actor, Parcel};
use strc_work_meaning::word::Word;

/// What a collector is made of.
#[derive(Drop)]
pub struct CollectorParts {
    /// The words of each tape.
    pub words: Vec<Vec<Word>>,
    /// How many rounds they are of, besides start-up.
    pub gathered: u32,
    /// How many rounds there are.
    pub rounds: u32,
    /// How many parcels it has taken.
    pub taken: u32,
    /// Why the run stops short of its rounds.
    pub stop: Option<Stop>,
    /// Has it given its last parcel?
    pub finished: bool,
}

/// The last actor of a ring of stages: it gathers the words of each parcel until the first that is
/// stopped, and gives it back empty.
#[derive(Drop)]
pub struct Collector {
    parts: CollectorParts,
}

impl Model for Collector {
    ghost use Rattle.strc_stage_steps.specs.declared.collector.CollectorParts.{CollectorParts};

    ghost Value = { CollectorParts };

    ghost use Rattle.strc_stage_steps.specs.Collectors.{IsCollector};

    ghost view = { λ c. c.parts };

    ghost invariant = { λ c. IsCollector c.parts };
}

impl Collector {
    /// A collector of these tapes, for so many rounds, with the words that start-up gave.
    pub fn new(words: Vec<Vec<Word>>, rounds: u32) -> Collector
        ensures { result ≡ begun words rounds }
    {
        Collector {
            parts: CollectorParts {
                words,
                gathered: 0,
                rounds,
                taken: 0,
                stop: None,
                finished: rounds == 0,
            },
        }
    }

    /// What it is made of, for whoever tells of the run.
    pub fn into_parts(self) -> CollectorParts
        ensures { result ≡ self }
    {
        let Collector { parts } = self;
        parts
    }
}

impl Actor for Collector {
    ghost use Rattle.std.specs.Prelude.{true, is_some, nat_le, ◌||◌};
    ghost use Rattle.strc_stage_core.specs.Actors.{Collects};
    ghost use Rattle.strc_stage_steps.specs.Steps.{stage_work};
    ghost use Rattle.strc_stage_steps.specs.Collectors.{sees};

    ghost does = { λ c p d q. Collects stage_work (sees c) p (sees d) q };

    ghost has_finished = { λ c. c.finished || nat_le c.rounds c.taken };

    ghost has_halted = { λ c. is_some c.stop };

    ghost takes = { λ _ _. true };

    fn finished(&self) -> bool {
        self.parts.finished || self.parts.rounds <= self.parts.taken
    }

    fn halted(&self) -> bool {
        self.parts.stop.is_some()
    }

    fn fits(&self, _parcel: &Parcel) -> bool {
        true
    }

    fn step(&mut self, alloc: Global, parcel: Parcel) -> Parcel {
        let _ = alloc;
        gather(&mut self.parts, parcel)
    }
}

impl CollectorActor for Collector {
    ghost use Rattle.strc_stage_steps.specs.Collectors.{sees};
    ghost use Rattle.strc_stage_steps.specs.Going.{not_finished, has_finished};

    ghost sees = { sees };

    ghost collects = { λ collector parcel later result does. does };

    ghost goes = { λ collector going left. not_finished collector.finished collector.rounds
        collector.taken going left };

    ghost ends = { λ collector ended. has_finished collector.finished collector.rounds
        collector.taken ended };
}
